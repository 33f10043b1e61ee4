// The keys of tuples.
ghost use Rattle.std.specs.Prelude.{◌≡◌, ◌++◌, IfOk, OnOk};
ghost use Rattle.bdb_base.specs.Bases.{key_lengths};
ghost use Rattle.bdb_model.specs.Levels.{key_tuple};

use bdb_base::{Exact, List, Ordered, RelDef, Tuple, Value, cmp_row, key_length, key_of};
use std::alloc::{AllocError, Global};
use std::cmp::Ordering;
use std::marker::Model;

/// The key of a tuple, with the number of its relation.
#[derive(Drop)]
pub struct TupleKey {
    rel: u32,
    vals: List<Value>,
}

impl Model for TupleKey {
    ghost use Rattle.bdb_base.specs.TupleFields.{Fields};

    ghost Value = { Fields };

    ghost view = { λ k. record { rel = k.rel; vals = k.vals } };
}

impl Exact for TupleKey {
    fn try_clone(&self, alloc: Global) -> Result<Self, AllocError> {
        let vals = self.vals.try_clone(alloc)?;
        Ok(TupleKey {
            rel: self.rel,
            vals,
        })
    }
}

impl Ordered for TupleKey {
    ghost use Rattle.bdb_base.specs.Order.{tuple_cmp};
    ghost use Rattle.bdb_base.specs.OrderLemmas.{tuple_exact};

    ghost order = { tuple_cmp };

    ghost exact = { tuple_exact };

    fn compare(&self, other: &Self) -> Ordering {
        match self.rel.cmp(&other.rel) {
            Ordering::Equal => cmp_row(self.vals.as_slice(), other.vals.as_slice()),
            other => other,
        }
    }
}

/// The length of the key of a tuple's relation.
pub fn key_length_of(rels: &[RelDef], t: &Tuple) -> u32
    ensures { result ≡ key_lengths rels.now t.now.rel }
{
    key_length(rels, t.rel)
}

/// A tuple's key, where these are the relations.
pub fn key_tuple(alloc: Global, rels: &[RelDef], t: &Tuple) -> Result<TupleKey, AllocError>
    ensures { IfOk result (λ key. key ≡ key_tuple (key_lengths rels.now) t.now) }
{
    let mut vals = List::new(alloc);
    push_copies(alloc, &mut vals, key_of(t, key_length_of(rels, t)))?;
    Ok(TupleKey { rel: t.rel, vals })
}

fn push_copies(alloc: Global, vals: &mut List<Value>, more: &[Value]) -> Result<(), AllocError>
    ensures { OnOk result (vals.new ≡ vals.old ++ more.now) }
{
    for value in more {
        vals.push(value.try_clone(alloc)?)?;
    }
    Ok(())
}
