// How many places there are, and how many of them are empty.
use crate::row::Row;

/// So many empty places are never too many.
const FEW: usize = 64;

/// So many always are.
const MOST: usize = 16_384;

/// Among how many places one may be empty: two in a full block.
const SHARE: usize = 16;

/// How many places there are, and how many of them are empty. A place that is taken away by itself isn't seen, so both may be a little
/// off: they only decide when the empty places are taken away, and no clause speaks of them.
#[derive(Drop)]
pub struct Census {
    places: usize,
    empty: usize,
}

impl Census {
    /// That of no places.
    pub fn none() -> Self {
        Census {
            places: 0,
            empty: 0,
        }
    }

    /// Counts that something else stands at a place that was there.
    #[inline(always)]
    pub fn swapped(&mut self, had_row: bool, has_row: bool) {
        if had_row && !has_row {
            self.empty = self.empty.saturating_add(1);
        }
        if !had_row && has_row {
            self.empty = self.empty.saturating_sub(1);
        }
    }

    /// Counts that a row stands at a place where this stood, or nothing.
    #[inline(always)]
    pub fn inserted(&mut self, before: &Option<Option<Row>>) {
        match before {
            None => self.places = self.places.saturating_add(1),
            Some(None) => self.empty = self.empty.saturating_sub(1),
            Some(Some(_)) => {}
        }
    }

    /// Counts that a row stands at a place that is new, or had a row, or was empty.
    #[inline(always)]
    pub fn put(&mut self, is_new: bool, had_row: bool) {
        if is_new {
            self.places = self.places.saturating_add(1);
        } else if !had_row {
            self.empty = self.empty.saturating_sub(1);
        }
    }

    /// Counts that the empty places were taken away.
    pub fn swept(&mut self) {
        self.places = self.places.saturating_sub(self.empty);
        self.empty = 0;
    }

    /// Whether so many places are empty that a walk over all of them pays.
    #[inline(always)]
    pub fn has_many_empty(&self) -> bool {
        self.empty > FEW && self.empty > MOST.min(self.places / SHARE)
    }
}
