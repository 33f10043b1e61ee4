// A block of places in their order.
ghost use Rattle.std.specs.Prelude.{◌≡◌, ◌<◌, ◌≤◌, ◌∷◌, ◌++◌, [], Some, None, IfOk, OnOk, OnErr, not, length, take, drop, slice_set};
ghost use Prim.Native.Nat.{suc};
ghost use Rattle.bdb_memory.specs.Entries.{AreBelow, NoneBelow, IsAscending};
ghost use Rattle.bdb_memory.specs.Blocks.{entry_at, starts_within, without_empty, has_any, HasEntry, HasFirst};

use crate::entry::Entry;
use crate::head::Head;
use crate::row::Row;
use crate::words::Probe;
use std::alloc::{AllocError, Global};
use std::cmp::Ordering;
use std::marker::Model;

/// The most places of a block.
pub const CAPACITY: usize = 32;

/// A block of places in ascending order.
#[derive(Drop)]
pub struct Block {
    /// The head of the first place, if there is one, so that a search among blocks looks at no entry.
    first: Head,
    entries: Vec<Entry>,
}

impl Model for Block {
    ghost use Rattle.bdb_memory.specs.Entries.{Entries};

    ghost Value = { Entries };

    ghost view = { λ b. b.entries.items };

    ghost use Rattle.bdb_memory.specs.Blocks.{HasFirst};

    ghost invariant = { λ b. HasFirst b.first b.entries.items };
}

impl Block {
    /// A block of one entry.
    pub fn of(alloc: Global, entry: Entry) -> Result<Self, AllocError>
        ensures { IfOk result (λ block. block ≡ entry ∷ []) }
    {
        let first = entry.head();
        let mut entries = Vec::with_capacity(alloc, CAPACITY)?;
        entries.push(entry)?;
        Ok(Block { first, entries })
    }

    /// How many places there are.
    #[inline(always)]
    pub fn len(&self) -> usize
        ensures { result ≡ length self.now }
    {
        self.entries.len()
    }

    /// Whether there is no place.
    pub fn is_empty(&self) -> bool
        ensures { result ≡ not (has_any self.now) }
    {
        self.entries.is_empty()
    }

    /// The entry at an index.
    #[inline(always)]
    pub fn entry(&self, index: usize) -> &Entry
        requires { index < length self.now }
        ensures { result.now ≡ entry_at self.now index }
    {
        &self.entries[index]
    }

    /// All entries.
    #[inline(always)]
    pub fn entries(&self) -> &[Entry]
        ensures { result.now ≡ self.now }
    {
        self.entries.as_slice()
    }

    /// The entries from an index on.
    #[inline(always)]
    pub fn entries_from(&self, index: usize) -> &[Entry]
        requires { index ≤ length self.now }
        ensures { result.now ≡ drop index self.now }
    {
        &self.entries[index..]
    }

    /// Whether the first place isn't above one that is looked for.
    #[inline(always)]
    pub fn starts_within(&self, probe: &Probe<'_>) -> bool
        ensures { result ≡ starts_within probe.now self.now }
    {
        match probe.compare_head(&self.first) {
            Ordering::Less => true,
            Ordering::Equal => self.starts_within_alike(probe),
            Ordering::Greater => self.entries.is_empty(),
        }
    }

    /// The same where there is a place.
    #[inline(always)]
    pub fn begins_within(&self, probe: &Probe<'_>) -> bool
        requires { HasEntry self.now }
        ensures { result ≡ starts_within probe.now self.now }
    {
        match probe.compare_head(&self.first) {
            Ordering::Less => true,
            Ordering::Equal => self.starts_within_alike(probe),
            Ordering::Greater => false,
        }
    }

    /// The same where the head doesn't tell.
    fn starts_within_alike(&self, probe: &Probe<'_>) -> bool
        ensures { result ≡ starts_within probe.now self.now }
    {
        match self.entries.first() {
            Some(entry) => entry.compare(probe).is_le(),
            None => true,
        }
    }

    /// The index of the first place that isn't below one that is looked for. It goes on by four places, and then by one.
    #[inline(always)]
    pub fn lower_bound(&self, probe: &Probe<'_>) -> usize
        requires { IsAscending self.now }
        ensures within { result ≤ length self.now }
        ensures below { AreBelow probe.now (take result self.now) }
        ensures above { NoneBelow probe.now (drop result self.now) }
    {
        let mut at: usize = 0;
        let mut step: usize = 4;
        while step > 0 {
            if self.len() - at >= step && self.entry(at + step - 1).is_below(probe) {
                at += step;
            } else {
                step = shorter_step(step);
            }
        }
        at
    }

    /// Puts another row at an index, and answers what stood there.
    pub fn replace(&mut self, index: usize, row: Option<Row>) -> Option<Row>
        requires { index < length self.old }
        ensures before { result ≡ (entry_at self.old index).1 }
        ensures block { self.new ≡ slice_set self.old index ((entry_at self.old index).0, row) }
    {
        self.entries[index].swap(row)
    }

    /// Puts an entry in at an index.
    pub fn insert(&mut self, index: usize, entry: Entry) -> Result<(), AllocError>
        requires { index ≤ length self.old }
        ensures ok { OnOk result
            (self.new ≡ take index self.old ++ entry ∷ drop index self.old) }
        ensures err { OnErr result (self.new ≡ self.old) }
    {
        if index == 0 {
            return self.insert_first(entry);
        }
        // Behind all others it moves none.
        if index == self.entries.len() {
            self.entries.push(entry)?;
            return Ok(());
        }
        match self.entries.insert(index, entry) {
            Ok(()) => Ok(()),
            Err(_) => Err(AllocError),
        }
    }

    /// Puts an entry in before all others.
    fn insert_first(&mut self, entry: Entry) -> Result<(), AllocError>
        ensures ok { OnOk result (self.new ≡ entry ∷ self.old) }
        ensures err { OnErr result (self.new ≡ self.old) }
    {
        let head = entry.head();
        match self.entries.insert(0, entry) {
            Ok(()) => {
                self.first = head;
                Ok(())
            }
            Err(_) => Err(AllocError),
        }
    }

    /// Takes the place at an index out.
    pub fn remove(&mut self, index: usize)
        requires { index < length self.old }
        ensures { self.new ≡ take index self.old ++ drop (suc index) self.old }
    {
        self.entries.remove(index);
        if index == 0 {
            self.first = head_of_first(&self.entries, self.first);
        }
    }

    /// Cuts the places from an index on off.
    pub fn split_off(&mut self, index: usize) -> Result<Block, AllocError>
        requires { index ≤ length self.old }
        ensures front { OnOk result (self.new ≡ take index self.old) }
        ensures back { IfOk result (λ block. block ≡ drop index self.old) }
        ensures err { OnErr result (self.new ≡ self.old) }
    {
        let entries = with_room(self.entries.split_off(index)?);
        let first = head_of_first(&entries, self.first);
        Ok(Block { first, entries })
    }

    /// Takes all empty places out.
    pub fn drop_empty(&mut self)
        ensures { self.new ≡ without_empty self.old }
    {
        self.entries.retain(|entry| entry.has_row());
        self.first = head_of_first(&self.entries, self.first);
    }
}

/// The head of the first place; any other where there is none.
fn head_of_first(entries: &[Entry], other: Head) -> Head
    ensures { HasFirst result entries.now }
{
    match entries.first() {
        Some(entry) => entry.head(),
        None => other,
    }
}

/// The same entries with room for what will come in. It isn't needed yet, so where memory runs out they are left as they are. Fresh
/// memory is taken, since it costs more to make that of a few entries larger.
fn with_room(mut entries: Vec<Entry>) -> Vec<Entry>
    ensures { result.items ≡ entries.items }
{
    match Vec::with_capacity(*entries.allocator(), CAPACITY) {
        Ok(mut roomy) => match roomy.append(&mut entries) {
            Ok(()) => roomy,
            Err(_) => entries,
        },
        Err(_) => entries,
    }
}

/// By how many places a search goes on that found the place that is looked for within so many: sixteen, then four, then one; none where
/// it is found.
#[inline(always)]
pub fn shorter_step(step: usize) -> usize
    ensures shorter { 0 < step → result < step }
    ensures last { result ≡ 0 → step ≤ 1 }
{
    if step > 4 {
        4
    } else if step > 1 {
        1
    } else {
        0
    }
}
