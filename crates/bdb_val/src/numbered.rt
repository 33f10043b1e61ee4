// Rows in which the mark of a tuple's number is looked up.
ghost use Rattle.std.specs.Prelude.{◌≡◌, true};
ghost use Rattle.bdb_val.specs.GroupChanges.{mark_under};
ghost use Rattle.bdb_val.specs.Numbered.{AreRising};

use crate::changes::Marked;
use bdb_base::Sign;
use std::marker::Model;

/// Rows of a group of a world by the numbers of their tuples. Contracts see the list of the rows.
#[derive(Drop)]
pub struct NumberedRows<'a> {
    rows: &'a [Marked],
    rising: bool,
}

impl<'a> Model for NumberedRows<'a> {
    ghost use Rattle.std.specs.Prelude.{◌≡◌, ℕ, true, List};
    ghost use Rattle.bdb_tables.specs.Marks.{Mark};
    ghost use Rattle.bdb_val.specs.Numbered.{AreRising};

    ghost Value = { List (ℕ × Mark) };

    ghost view = { λ n. n.rows.now };

    ghost invariant = { λ n. n.rising ≡ true → AreRising n.rows.now };
}

impl<'a> NumberedRows<'a> {
    /// Rows, whose order by number is found out once.
    pub fn of(rows: &'a [Marked]) -> Self
        ensures { result ≡ rows.now }
    {
        NumberedRows {
            rows,
            rising: are_rising(rows),
        }
    }

    /// The mark of the row of a tuple's number. It is found by binary search where the numbers rise, as those of a group do.
    pub fn mark(&self, tid: u32) -> Option<(Sign, bool)>
        ensures { result ≡ mark_under self.now tid }
    {
        if self.rising {
            mark_by_search(self.rows, tid)
        } else {
            first_mark(self.rows, tid)
        }
    }
}

// Whether the numbers of rows rise.
fn are_rising(rows: &[Marked]) -> bool
    ensures { result ≡ true → AreRising rows.now }
{
    for at in 1..rows.len() {
        if rows[at].0 <= rows[at - 1].0 {
            return false;
        }
    }
    true
}

// The mark of a number among rows whose numbers rise.
fn mark_by_search(rows: &[Marked], tid: u32) -> Option<(Sign, bool)>
    requires { AreRising rows.now }
    ensures { result ≡ mark_under rows.now tid }
{
    let mut low = 0;
    let mut high = rows.len();
    while low < high {
        let mid = low + (high - low) / 2;
        let row = &rows[mid];
        if row.0 < tid {
            low = mid + 1;
        } else if row.0 > tid {
            high = mid;
        } else {
            return Some(row.1);
        }
    }
    None
}

// The mark of the first row of a number.
fn first_mark(rows: &[Marked], tid: u32) -> Option<(Sign, bool)>
    ensures { result ≡ mark_under rows.now tid }
{
    for row in rows {
        if row.0 == tid {
            return Some(row.1);
        }
    }
    None
}
