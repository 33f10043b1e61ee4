// What a walk uses again at each world.
ghost use Rattle.std.specs.Prelude.{◌≡◌, true, [], None, Some, IfOk, IfSome, slice_index_or};
ghost use Rattle.bdb_val.specs.Rooms.{GiveOne, HaveNone, IsNoted, is_from, unless_from};

use crate::changes::{MarkChange, Marked};
use bdb_keep::Span;
use bdb_tables::Room;
use std::alloc::{AllocError, Global};

/// Room for the bytes with which the keys of a group begin, unless its key is long.
pub const PREFIX_ROOM: usize = 64;

/// Room for the bytes with which a link's key begins.
const LINK_ROOM: usize = 4;

/// Room that a walk uses again at each world.
#[derive(Drop)]
pub struct WalkRoom {
    /// For the bytes of a group.
    pub group: GroupRoom,
    /// For the rows of a world.
    pub own: Vec<Marked>,
    /// The rows that were handed down last.
    pub handed: Handed,
    /// For the changes that settle a group.
    pub changes: Vec<MarkChange>,
    /// For the bytes of links.
    pub links: LinkRoom,
}

/// Room for the bytes of a group: those with which its keys begin, and those of its keys and rows.
#[derive(Drop)]
pub struct GroupRoom {
    pub prefix: Vec<u8>,
    pub marks: Room,
}

/// Rows of a group of a world that others inherit, kept for the next of its heirs.
#[derive(Drop)]
pub struct Handed {
    /// The world, while these are its rows.
    pub from: Option<u32>,
    pub rows: Vec<Marked>,
    /// By the numbers of worlds: the only row of a world, where it is known.
    pub singles: Vec<Option<Marked>>,
}

/// Room for the bytes of links: how their keys begin, and those that were read.
#[derive(Drop)]
pub struct LinkRoom {
    pub prefix: Vec<u8>,
    pub span: Span,
}

impl WalkRoom {
    /// Room with nothing in it, that keeps the only rows of as many worlds.
    pub fn new(alloc: Global, worlds: usize) -> Result<Self, AllocError>
        ensures group { IfOk result (λ room. room.group.prefix.items ≡ []) }
        ensures handed { IfOk result (λ room. room.handed.from ≡ None) }
        ensures singles { IfOk result (λ room. HaveNone room.handed.singles.items) }
    {
        Ok(WalkRoom {
            group: GroupRoom::new(alloc)?,
            own: Vec::new(alloc),
            handed: Handed::new(alloc, worlds)?,
            changes: Vec::new(alloc),
            links: LinkRoom::new(alloc)?,
        })
    }
}

impl GroupRoom {
    /// Room with nothing in it.
    fn new(alloc: Global) -> Result<Self, AllocError>
        ensures { IfOk result (λ room. room.prefix.items ≡ []) }
    {
        Ok(GroupRoom {
            prefix: Vec::with_capacity(alloc, PREFIX_ROOM)?,
            marks: Room::new(alloc),
        })
    }
}

impl Handed {
    /// No rows.
    fn new(alloc: Global, worlds: usize) -> Result<Self, AllocError>
        ensures from { IfOk result (λ handed. handed.from ≡ None) }
        ensures singles { IfOk result (λ handed. HaveNone handed.singles.items) }
    {
        Ok(Handed {
            from: None,
            rows: Vec::new(alloc),
            singles: no_singles(alloc, worlds)?,
        })
    }

    /// The only row of a world, where it is known.
    pub fn single(&self, wid: u32) -> Option<Marked>
        ensures { result ≡ slice_index_or self.now.singles.items wid None }
    {
        match self.singles.get(wid as usize) {
            Some(single) => *single,
            None => None,
        }
    }

    /// Keeps the row that changes give a world, where they give it its only one.
    pub fn note(&mut self, wid: u32, own: &[Marked], changes: &[MarkChange])
        ensures from { self.new.from ≡ self.old.from }
        ensures rows { self.new.rows.items ≡ self.old.rows.items }
        ensures singles { IsNoted wid own.now changes.now self.old.singles.items
            self.new.singles.items }
    {
        let at = wid as usize;
        if at < self.singles.len() {
            self.singles[at] = single_of(own, changes);
        }
    }

    /// Whether these are the rows of a world.
    pub fn is_from(&self, wid: u32) -> bool
        ensures is { result ≡ is_from wid self.now.from }
        ensures from { result ≡ true → self.now.from ≡ Some wid }
    {
        match self.from {
            Some(from) => from == wid,
            None => false,
        }
    }

    /// Forgets the rows if they are those of a world.
    pub fn forget(&mut self, wid: u32)
        ensures from { self.new.from ≡ unless_from wid self.old.from }
        ensures rows { self.new.rows.items ≡ self.old.rows.items }
        ensures singles { self.new.singles.items ≡ self.old.singles.items }
    {
        if self.is_from(wid) {
            self.from = None;
        }
    }
}

impl LinkRoom {
    /// Room with nothing in it.
    fn new(alloc: Global) -> Result<Self, AllocError> {
        Ok(LinkRoom {
            prefix: Vec::with_capacity(alloc, LINK_ROOM)?,
            span: Span::new(alloc),
        })
    }
}

// No row for each of so many worlds.
fn no_singles(alloc: Global, worlds: usize) -> Result<Vec<Option<Marked>>, AllocError>
    ensures { IfOk result (λ singles. HaveNone singles.items) }
{
    let mut singles = Vec::with_capacity(alloc, worlds)?;
    for _ in 0..worlds {
        singles.push(None)?;
    }
    Ok(singles)
}

// The row that changes give a world, if it has none, and they give it one alone.
fn single_of(own: &[Marked], changes: &[MarkChange]) -> Option<Marked>
    ensures { IfSome result (GiveOne own.now changes.now) }
{
    if own.len() != 0 || changes.len() != 1 {
        return None;
    }
    let change = &changes[0];
    match change.1 {
        Some(mark) => Some((change.0, mark)),
        None => None,
    }
}
