// The places that were used last.
use crate::finding::Spot;
use crate::words::Probe;
use std::alloc::Global;

/// What is remembered of a place that was used: its shelf, and its spot there.
pub type Cursor = (usize, Spot);

/// Where is looked first: beside a cursor, and then on the shelf of another one and a few behind it, beside its spot.
pub type CursorPair = (Cursor, Cursor);

/// A cursor in few bytes.
type ShortCursor = (u32, u16, u16);

/// The first place of all.
const START: Cursor = (0, (0, 0));

/// How many cursors are remembered by the first bytes of keys.
const SLOTS: usize = 8192;

/// For each table the place that was read last and the one that was written last, so that both are found at once where rows are read
/// in one place and written in another in turn; and the place that was used last among those whose keys begin with the same four bytes,
/// which most often lie near each other. A cursor only says where a search looks first.
#[derive(Drop)]
pub struct Cursors {
    alloc: Global,
    read: [Cursor; 16],
    written: [Cursor; 16],
    /// Whether the last write was in the block that was read last.
    follows: [bool; 16],
    used: Vec<ShortCursor>,
    /// Whether memory was asked for those cursors.
    asked: bool,
}

impl Cursors {
    /// Cursors that know of no place. It takes no memory.
    pub fn new(alloc: Global) -> Self {
        Cursors {
            alloc,
            read: [START; 16],
            written: [START; 16],
            follows: [false; 16],
            used: Vec::new(alloc),
            asked: false,
        }
    }

    /// Takes the memory for cursors remembered by the first bytes of keys. It is asked for once: where it is refused, no such cursor is
    /// ever remembered.
    #[inline(always)]
    pub fn make_room(&mut self) {
        if !self.asked {
            self.asked = true;
            self.used = slots(self.alloc);
        }
    }

    /// The cursors for a read.
    #[inline(always)]
    pub fn to_read(&self, probe: &Probe<'_>) -> CursorPair {
        (
            self.read[usize::from(probe.tab() % 16)],
            self.used_by(probe),
        )
    }

    /// Where the table of a place was written last.
    #[inline(always)]
    pub fn last_written(&self, probe: &Probe<'_>) -> Cursor {
        self.written[usize::from(probe.tab() % 16)]
    }

    /// The cursors for a write. Where the last one was in the block that was read last, so may be this one.
    #[inline(always)]
    pub fn to_write(&self, probe: &Probe<'_>) -> CursorPair {
        let at = usize::from(probe.tab() % 16);
        let last = if self.follows[at] {
            self.read[at]
        } else {
            self.written[at]
        };
        (last, self.used_by(probe))
    }

    /// Remembers where a table was read.
    #[inline(always)]
    pub fn remember_read(&mut self, probe: &Probe<'_>, cursor: Cursor) {
        self.read[usize::from(probe.tab() % 16)] = cursor;
        self.remember_used(probe, cursor);
    }

    /// Remembers where a table was written.
    #[inline(always)]
    pub fn remember_written(&mut self, probe: &Probe<'_>, cursor: Cursor) {
        let at = usize::from(probe.tab() % 16);
        self.written[at] = cursor;
        self.follows[at] = is_in_block(self.read[at], cursor);
        if self.follows[at] {
            self.read[at] = cursor;
        }
        self.remember_used(probe, cursor);
    }

    /// The place that was used last for keys with the same first bytes.
    #[inline(always)]
    fn used_by(&self, probe: &Probe<'_>) -> Cursor {
        let slot = slot_of(probe);
        if slot < self.used.len() {
            let (at, block, index) = self.used[slot];
            (at as usize, (usize::from(block), usize::from(index)))
        } else {
            START
        }
    }

    /// Remembers a cursor, where there is room. It takes no memory.
    #[inline(always)]
    fn remember_used(&mut self, probe: &Probe<'_>, cursor: Cursor) {
        let slot = slot_of(probe);
        if slot < self.used.len() {
            let (at, (block, index)) = cursor;
            self.used[slot] = (
                (at % 0x1_0000_0000) as u32,
                (block % 0x1_0000) as u16,
                (index % 0x1_0000) as u16,
            );
        }
    }
}

/// Whether two cursors are in one block.
#[inline(always)]
fn is_in_block(one: Cursor, other: Cursor) -> bool {
    one.0 == other.0 && one.1.0 == other.1.0
}

/// Slots that know of no place; none where memory runs out.
fn slots(alloc: Global) -> Vec<ShortCursor> {
    match vec![in alloc; (0u32, 0u16, 0u16); SLOTS] {
        Ok(slots) => slots,
        Err(_) => Vec::new(alloc),
    }
}

/// The slot of a place, by its table and the first bytes of its key.
#[inline(always)]
fn slot_of(probe: &Probe<'_>) -> usize {
    (probe.prefix().wrapping_mul(0x9e37_79b9_7f4a_7c15) >> 51) as usize
}
