// Values by which something is looked up.
use bdb_base::{List, Value, cmp_row};
use std::cmp::Ordering;
use std::marker::Model;

/// Values by which something is looked up, which contracts see as a list.
#[derive(Drop)]
pub struct Key {
    pub values: List<Value>,
}

impl Model for Key {
    ghost use Rattle.bdb_queries.specs.Collected.{Values};

    ghost Value = { Values };

    ghost view = { λ k. k.values };
}

impl PartialEq for Key {
    ghost use Rattle.std.specs.Cmp.{partial_equiv_from_equiv, eq_by_cmp_equiv};
    ghost use Rattle.std.specs.Ordering.{eq_by_cmp};
    ghost use Rattle.bdb_base.specs.Order.{row_cmp};
    ghost use Rattle.bdb_base.specs.OrderLemmas.{row_exact};

    ghost eq = { eq_by_cmp row_cmp };

    ghost laws = { partial_equiv_from_equiv (eq_by_cmp_equiv row_exact.total) };

    fn eq(&self, other: &Self) -> bool {
        cmp_row(self.values.as_slice(), other.values.as_slice()) == Ordering::Equal
    }
}

impl Eq for Key {
    ghost use Rattle.std.specs.Cmp.{eq_by_cmp_equiv};
    ghost use Rattle.bdb_base.specs.OrderLemmas.{row_exact};

    ghost laws = { eq_by_cmp_equiv row_exact.total };
}

impl PartialOrd for Key {
    ghost use Rattle.std.specs.Prelude.{Some, refl};
    ghost use Rattle.std.specs.Cmp.{po};
    ghost use Rattle.bdb_base.specs.Order.{row_cmp};
    ghost use Rattle.bdb_base.specs.OrderLemmas.{row_exact};

    ghost partial_cmp = { λ a b. Some (row_cmp a b) };

    ghost laws = { po row_exact.total (λ _ _. refl) };

    fn partial_cmp(&self, other: &Self) -> Option<Ordering> {
        Some(self.cmp(other))
    }
}

impl Ord for Key {
    ghost use Rattle.std.specs.Prelude.{refl};
    ghost use Rattle.bdb_base.specs.Order.{row_cmp};
    ghost use Rattle.bdb_base.specs.OrderLemmas.{row_exact};

    ghost cmp = { row_cmp };

    ghost total = { row_exact.total };

    ghost matches_partial_cmp = { λ _ _. refl };

    ghost matches_eq = { λ _ _. refl };

    fn cmp(&self, other: &Self) -> Ordering {
        cmp_row(self.values.as_slice(), other.values.as_slice())
    }
}
