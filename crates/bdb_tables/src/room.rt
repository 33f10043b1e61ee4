// Room for bytes.
use bdb_keep::Span;
use std::alloc::Global;

/// Room for the bytes of keys and rows, for as many calls as use it.
#[derive(Drop)]
pub struct Room {
    pub(crate) key: Vec<u8>,
    pub(crate) row: Vec<u8>,
    pub(crate) low: Vec<u8>,
    pub(crate) span: Span,
}

impl Room {
    /// Room that grows with its first use.
    pub fn new(alloc: Global) -> Self {
        Room {
            key: Vec::new(alloc),
            row: Vec::new(alloc),
            low: Vec::new(alloc),
            span: Span::new(alloc),
        }
    }
}
