// The column that stands for all that chains of equalities join to a column.
ghost use Rattle.std.specs.Prelude.{◌≡◌, IfOk, OnOk};
ghost use Rattle.bdb_base.specs.Safety.{same_column};
ghost use Rattle.bdb_plan.specs.Sources.{renamed};
ghost use Rattle.bdb_trans.specs.Names.{named, NameColumns, TakesIn};

use bdb_base::{Cmp, Cond, Operand, Ref};
use std::alloc::{AllocError, Global};

#[tactic(auto, using(crate::proofs::TurnLemmas::names_go_on, crate::proofs::TurnLemmas::no_names))]
/// Which name of a column gives way to which other, the first renaming first.
pub fn renames_of(alloc: Global, conds: &[Cond]) -> Result<Vec<(Ref, Ref)>, AllocError>
    ensures { IfOk result (λ names. NameColumns conds.now names.items) }
{
    let mut names = Vec::new(alloc);
    let mut at = conds.len();
    while at > 0 {
        at -= 1;
        take_in(&mut names, &conds[at])?;
    }
    Ok(names)
}

#[tactic(auto, using(crate::proofs::TurnLemmas::taken_in, crate::proofs::TurnLemmas::one_name, crate::proofs::TurnLemmas::not_taken))]
/// Takes in an equality of two columns whose names differ yet.
fn take_in(names: &mut Vec<(Ref, Ref)>, cond: &Cond) -> Result<(), AllocError>
    ensures { OnOk result (TakesIn cond.now names.old.items names.new.items) }
{
    match (cond.cmp, &cond.right) {
        (Cmp::Eq, Operand::Col(right)) => {
            let old = named(names.as_slice(), cond.left);
            let new = named(names.as_slice(), *right);
            if same_column(old, new) {
                return Ok(());
            }
            names.push((old, new))?;
            Ok(())
        }
        _ => Ok(()),
    }
}

/// The name of a column.
pub fn named(names: &[(Ref, Ref)], column: Ref) -> Ref
    ensures { result ≡ named names.now column }
{
    match names {
        [] => column,
        [(old, new), rest @ ..] => named(rest, renamed(*old, *new, column)),
    }
}

fn renamed(old: Ref, new: Ref, column: Ref) -> Ref
    ensures { result ≡ renamed old new column }
{
    if same_column(column, old) {
        new
    } else {
        column
    }
}

/// Whether two columns are one.
pub fn same_column(left: Ref, right: Ref) -> bool
    ensures { result ≡ same_column left right }
{
    left.item == right.item && left.col == right.col
}
