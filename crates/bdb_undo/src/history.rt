//! The changes that were made last.
ghost use Rattle.std.specs.Prelude.{◌≡◌, ◌<◌, ◌≤◌, ◌+◌, length, slice_get, IfOk, IsOk};
ghost use Rattle.std.specs.Option.{option_copied};
ghost use Rattle.bdb_undo.specs.Histories.{nothing_kept, noted, stepped_back, stepped_forth};
ghost use Rattle.bdb_undo.specs.Limits.{most_changes};

use crate::change::Change;
use crate::limits::MOST_CHANGES;
use circular_buffer::HeapCircularBuffer;
use std::alloc::{AllocError, Global};
use std::marker::Model;

/// The changes that were made last, in order. The first ones, as many as `done`, can be undone; the others were undone and
/// can be redone. Contracts see both as lists, the nearest change first.
pub struct History {
    changes: HeapCircularBuffer<Change>,
    done: usize,
}

impl Model for History {
    ghost use Rattle.std.specs.Prelude.{reverse, take, drop};
    ghost use Rattle.bdb_undo.specs.Histories.{Kept, IsHistory};

    ghost Value = { Kept };

    ghost view = { λ h. record {
      undos = reverse (take h.done h.changes.items);
      redos = drop h.done h.changes.items;
    } };

    ghost invariant = { λ h. IsHistory h.changes h.done };
}

impl History {
    /// A history of no changes, with the room for all that it will ever keep. The only error is running out of memory.
    pub fn new(alloc: Global) -> Result<Self, AllocError>
        ensures { IfOk result (λ h. h ≡ nothing_kept) }
    {
        let changes = HeapCircularBuffer::with_capacity(alloc, MOST_CHANGES)?;
        Ok(History { changes, done: 0 })
    }

    /// Notes a change as the last one. The oldest change past the limit is forgotten, and none is left to redo.
    pub fn note(&mut self, change: Change)
        ensures { self.new ≡ noted change self.old }
    {
        self.changes.truncate_back(self.done);
        let _oldest = self.changes.push_back(change);
        self.done = self.changes.len();
    }

    /// The last change, which an undo takes back; none where there is nothing to undo.
    pub fn last(&self) -> Option<&Change>
        ensures { option_copied result ≡ slice_get self.now.undos 0 }
    {
        if self.done == 0 {
            return None;
        }
        self.changes.get(self.done - 1)
    }

    /// The change that was undone last, which a redo makes again; none where there is nothing to redo.
    pub fn coming(&self) -> Option<&Change>
        ensures { option_copied result ≡ slice_get self.now.redos 0 }
    {
        self.changes.get(self.done)
    }

    /// How many changes can be undone.
    pub fn undos(&self) -> usize
        ensures count { result ≡ length self.now.undos }
        ensures few { length self.now.undos + length self.now.redos ≤ most_changes }
    {
        self.done
    }

    /// How many changes can be redone.
    pub fn redos(&self) -> usize
        ensures count { result ≡ length self.now.redos }
        ensures few { length self.now.undos + length self.now.redos ≤ most_changes }
    {
        self.changes.len() - self.done
    }

    /// Makes room for a change to be taken back: callers ask for it before they take one back, so that nothing is left to be
    /// refused afterwards. This form of a history has had the room since `new`, so the call changes nothing and is never
    /// refused; a form that grows would need it.
    pub fn reserve(&mut self) -> Result<(), AllocError>
        ensures ok { IsOk result }
        ensures same { self.new ≡ self.old }
    {
        Ok(())
    }

    /// Counts the last change as undone: it becomes the coming one.
    pub fn back(&mut self)
        requires { 0 < length self.old.undos }
        ensures { self.new ≡ stepped_back self.old }
    {
        self.done -= 1;
    }

    /// Counts the coming change as made again: it becomes the last one.
    pub fn forth(&mut self)
        requires { 0 < length self.old.redos }
        ensures { self.new ≡ stepped_forth self.old }
    {
        self.done += 1;
    }

    /// Forgets all changes, and keeps the room.
    pub fn clear(&mut self)
        ensures { self.new ≡ nothing_kept }
    {
        self.changes.clear();
        self.done = 0;
    }
}

impl Drop for History {
    fn drop(self) {
        let History { changes, done: _ } = self;
        drop(changes);
    }
}
