// How many rows of one table are marked, by the numbers in their keys.
ghost use Rattle.std.specs.Prelude.{◌≡◌, true, false, Bool, not, ◌||◌, IfSome};
ghost use Rattle.std.specs.FinMap as map;
ghost use Rattle.bdb_keep.specs.Tables.{Tables};
ghost use Rattle.bdb_memory.specs.Tallies.{count_in, IsTally, TallyFollows};

use crate::counts::{BOUND, count_at, lower_at, raise_at};
use crate::marked::number_in;
use crate::words::Probe;
use bdb_keep::KeyEnd;
use std::alloc::Global;

/// The table whose marked rows are counted as they come and go; those of others are counted by reading.
pub const TABLE: u8 = 11;

/// How many rows of one table are marked, by the number in the first four bytes of their keys, and by that in the last four. It is right
/// unless it is stale, as it is once memory ran out.
#[derive(Drop)]
pub struct Tally {
    pub first: Vec<u32>,
    pub last: Vec<u32>,
    pub is_stale: bool,
}

impl Tally {
    /// That of no rows. It takes no memory.
    pub fn new(alloc: Global) -> Self
        ensures { IsTally result map.empty }
    {
        Tally {
            first: Vec::new(alloc),
            last: Vec::new(alloc),
            is_stale: false,
        }
    }

    /// Takes note that another row, or none, stands at a place, of which this was, or is, marked and in the table.
    #[inline(always)]
    pub fn note(&mut self, probe: &Probe<'_>, was: bool, is: bool)
        ensures { TallyFollows self.old self.new probe.now was is }
    {
        if was != is {
            self.note_change(probe, is);
        }
    }

    /// Counts that a row came that is marked, or one went.
    fn note_change(&mut self, probe: &Probe<'_>, is: bool)
        ensures { (was : Bool) → was ≡ not is → TallyFollows self.old self.new probe.now was is }
    {
        if is {
            self.count_one(probe);
        } else {
            self.discount_one(probe);
        }
    }

    /// Counts a row that came.
    fn count_one(&mut self, probe: &Probe<'_>)
        ensures { TallyFollows self.old self.new probe.now false true }
    {
        let first = raise_at(&mut self.first, number_in(probe, KeyEnd::First));
        let last = raise_at(&mut self.last, number_in(probe, KeyEnd::Last));
        self.is_stale = is_stale_after(self.is_stale, first, last);
    }

    /// Counts a row that went.
    fn discount_one(&mut self, probe: &Probe<'_>)
        ensures { TallyFollows self.old self.new probe.now true false }
    {
        let first = lower_at(&mut self.first, number_in(probe, KeyEnd::First));
        let last = lower_at(&mut self.last, number_in(probe, KeyEnd::Last));
        self.is_stale = is_stale_after(self.is_stale, first, last);
    }

    /// How many rows are marked at a number. None where that isn't counted.
    pub fn count(&self, tab: u8, end: KeyEnd, number: u32) -> Option<usize>
        ensures { IfSome result (λ n. (t : Tables) → IsTally self.now t
            → n ≡ count_in tab end number t) }
    {
        let number = number as usize;
        if self.is_stale || tab != TABLE || number >= BOUND {
            return None;
        }
        match end {
            KeyEnd::First => Some(count_at(self.first.as_slice(), number)),
            KeyEnd::Last => Some(count_at(self.last.as_slice(), number)),
        }
    }
}

/// Whether a tally is stale after two counts that could be changed, or not.
fn is_stale_after(was_stale: bool, first: bool, last: bool) -> bool
    ensures { result ≡ ((was_stale || not first) || not last) }
{
    was_stale || !first || !last
}
