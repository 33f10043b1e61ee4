// Rows as they are found.
ghost use Rattle.std.specs.Prelude.{◌≡◌, [], IfOk, OnOk};
ghost use Rattle.bdb_base.specs.Order.{row_cmp};
ghost use Rattle.bdb_base.specs.SortedSet.{put_in};
ghost use Rattle.bdb_queries.specs.Collected.{has_room, with_row};
ghost use Rattle.bdb_queries.specs.Limits.{up_to};

use bdb_base::{List, Value, cmp_row};
use std::alloc::{AllocError, Global};
use std::cmp::Ordering;
use std::collections::BTreeSet;
use std::marker::Model;

/// A row of an answer, which contracts see as its values.
#[derive(Drop)]
struct Row {
    values: List<Value>,
}

impl Model for Row {
    ghost use Rattle.bdb_queries.specs.Collected.{Values};

    ghost Value = { Values };

    ghost view = { λ r. r.values };
}

impl PartialEq for Row {
    ghost use Rattle.std.specs.Cmp.{partial_equiv_from_equiv, eq_by_cmp_equiv};
    ghost use Rattle.std.specs.Ordering.{eq_by_cmp};
    ghost use Rattle.bdb_base.specs.Order.{row_cmp};
    ghost use Rattle.bdb_base.specs.OrderLemmas.{row_exact};

    ghost eq = { eq_by_cmp row_cmp };

    ghost laws = { partial_equiv_from_equiv (eq_by_cmp_equiv row_exact.total) };

    fn eq(&self, other: &Self) -> bool {
        cmp_row(self.values.as_slice(), other.values.as_slice()) == Ordering::Equal
    }
}

impl Eq for Row {
    ghost use Rattle.std.specs.Cmp.{eq_by_cmp_equiv};
    ghost use Rattle.bdb_base.specs.OrderLemmas.{row_exact};

    ghost laws = { eq_by_cmp_equiv row_exact.total };
}

impl PartialOrd for Row {
    ghost use Rattle.std.specs.Prelude.{Some, refl};
    ghost use Rattle.std.specs.Cmp.{po};
    ghost use Rattle.bdb_base.specs.Order.{row_cmp};
    ghost use Rattle.bdb_base.specs.OrderLemmas.{row_exact};

    ghost partial_cmp = { λ a b. Some (row_cmp a b) };

    ghost laws = { po row_exact.total (λ _ _. refl) };

    fn partial_cmp(&self, other: &Self) -> Option<Ordering> {
        Some(self.cmp(other))
    }
}

impl Ord for Row {
    ghost use Rattle.std.specs.Prelude.{refl};
    ghost use Rattle.bdb_base.specs.Order.{row_cmp};
    ghost use Rattle.bdb_base.specs.OrderLemmas.{row_exact};

    ghost cmp = { row_cmp };

    ghost total = { row_exact.total };

    ghost matches_partial_cmp = { λ _ _. refl };

    ghost matches_eq = { λ _ _. refl };

    fn cmp(&self, other: &Self) -> Ordering {
        cmp_row(self.values.as_slice(), other.values.as_slice())
    }
}

/// The rows found so far, in order, each once. Once there are more than there may be, it takes no more.
#[derive(Drop)]
pub struct Found {
    rows: BTreeSet<Row>,
    most: usize,
}

impl Model for Found {
    ghost use Rattle.bdb_queries.specs.Collected.{Collected};

    ghost Value = { Collected };

    ghost view = { λ f. record { rows = f.rows.keys; most = f.most } };
}

impl Found {
    /// Nothing found yet, where there may be so many.
    pub fn new(alloc: Global, most: usize) -> Self
        ensures { result ≡ record { rows = []; most = most } }
    {
        Found {
            rows: BTreeSet::new(alloc),
            most,
        }
    }

    /// Whether there are not too many.
    pub fn has_room(&self) -> bool
        ensures { result ≡ has_room self.now }
    {
        self.rows.len() <= self.most
    }

    /// Takes a row, unless there are too many already.
    pub fn add(&mut self, values: List<Value>) -> Result<(), AllocError>
        ensures { OnOk result (self.new ≡ with_row self.old values) }
    {
        if !self.has_room() {
            return Ok(());
        }
        put_row(&mut self.rows, Row { values })
    }

    /// The rows; none where there are too many.
    pub fn into_rows(self, alloc: Global) -> Result<Option<List<List<Value>>>, AllocError>
        ensures { IfOk result (λ rows. rows ≡ up_to self.most self.rows) }
    {
        let Found { rows, most } = self;
        if rows.len() > most {
            return Ok(None);
        }
        let mut all = List::new(alloc);
        for row in rows {
            let Row { values } = row;
            all.push(values)?;
        }
        Ok(Some(all))
    }
}

/// Puts a row among others, unless it stands there.
fn put_row(rows: &mut BTreeSet<Row>, row: Row) -> Result<(), AllocError>
    ensures { OnOk result (rows.new.keys ≡ put_in row_cmp rows.old.keys row) }
{
    let Ok(_) = rows.insert(row) else {
        return Err(AllocError);
    };
    Ok(())
}
