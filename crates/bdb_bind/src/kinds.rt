// The check of kinds.
ghost use Rattle.std.specs.Prelude.{◌≡◌};
ghost use Rattle.bdb_base.specs.Same.{same_kind};
ghost use Rattle.bdb_base.specs.Safety.{one_kind};
ghost use Rattle.bdb_bind.specs.Firsts.{Checks};
ghost use Rattle.bdb_bind.specs.Kinds.{kind_of};
ghost use Rattle.bdb_bind.specs.Lines.{values_kind, side_kind, fits_set, fits_cond, set_kinds, cond_kinds, change_kind};

use crate::bound::BindError;
use crate::lookup::kind_at;
use crate::refusals::wrong_kind;
use bdb_base::{ColDef, Kind, Value};
use bdb_syntax::{Command, RawCond, RawSet, RawSide};
use std::alloc::Global;

/// Refuses a value, a set or a comparison that joins two kinds.
pub fn check_kinds(alloc: Global, cols: &[ColDef], command: &Command) -> Result<(), BindError>
    ensures { Checks result (change_kind cols.now command.now) }
{
    match command {
        Command::Insert { vals, .. } => {
            check_values(alloc, cols, vals.as_slice())?;
            Ok(())
        }
        Command::Why { vals, .. } => {
            check_values(alloc, cols, vals.as_slice())?;
            Ok(())
        }
        Command::Delete { conds, .. } => {
            check_conds(alloc, cols, conds.as_slice())?;
            Ok(())
        }
        Command::Update { sets, conds, .. } => {
            check_sets(alloc, cols, sets.as_slice())?;
            check_conds(alloc, cols, conds.as_slice())?;
            Ok(())
        }
        _ => Ok(()),
    }
}

/// Refuses the first value whose column is of another kind.
fn check_values(alloc: Global, cols: &[ColDef], vals: &[Value]) -> Result<(), BindError>
    ensures { Checks result (values_kind cols.now vals.now) }
{
    for (col, value) in cols.iter().zip(vals) {
        if !is_same_kind(col.kind, kind_of(value)) {
            return Err(wrong_kind(alloc, &col.name));
        }
    }
    Ok(())
}

/// Refuses the first set that joins two kinds.
#[tactic(auto, unfolding(crate::specs::Lines::set_kinds))]
fn check_sets(alloc: Global, cols: &[ColDef], sets: &[RawSet]) -> Result<(), BindError>
    ensures { Checks result (set_kinds cols.now sets.now) }
{
    for set in sets {
        if !fits_set(cols, set) {
            return Err(wrong_kind(alloc, &set.col));
        }
    }
    Ok(())
}

/// Refuses the first comparison that joins two kinds.
#[tactic(auto, unfolding(crate::specs::Lines::cond_kinds))]
fn check_conds(alloc: Global, cols: &[ColDef], conds: &[RawCond]) -> Result<(), BindError>
    ensures { Checks result (cond_kinds cols.now conds.now) }
{
    for cond in conds {
        if !fits_cond(cols, cond) {
            return Err(wrong_kind(alloc, &cond.left.col));
        }
    }
    Ok(())
}

/// Whether a set gives a column a value of its kind.
fn fits_set(cols: &[ColDef], set: &RawSet) -> bool
    ensures { result ≡ fits_set cols.now set.now }
{
    one_kind(kind_at(cols, &set.col), Some(kind_of(&set.to)))
}

/// Whether the sides of a comparison are of one kind.
fn fits_cond(cols: &[ColDef], cond: &RawCond) -> bool
    ensures { result ≡ fits_cond cols.now cond.now }
{
    one_kind(kind_at(cols, &cond.left.col), side_kind(cols, &cond.right))
}

/// The kind of a comparison's right side.
fn side_kind(cols: &[ColDef], side: &RawSide) -> Option<Kind>
    ensures { result ≡ side_kind cols.now side.now }
{
    match side {
        RawSide::Col(right) => kind_at(cols, &right.col),
        RawSide::Lit(value) => Some(kind_of(value)),
    }
}

/// Whether both kinds are known, and are one.
pub fn one_kind(a: Option<Kind>, b: Option<Kind>) -> bool
    ensures { result ≡ one_kind a b }
{
    match (a, b) {
        (Some(a), Some(b)) => is_same_kind(a, b),
        _ => false,
    }
}

/// Whether two kinds are one.
fn is_same_kind(a: Kind, b: Kind) -> bool
    ensures { result ≡ same_kind a b }
{
    matches!((a, b), (Kind::Int, Kind::Int) | (Kind::Text, Kind::Text))
}

/// The kind of a value.
pub fn kind_of(value: &Value) -> Kind
    ensures { result ≡ kind_of value.now }
{
    match value {
        Value::Int(_) => Kind::Int,
        Value::Text(_) => Kind::Text,
    }
}
