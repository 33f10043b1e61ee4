//! A change taken back, and made again.
ghost use Rattle.std.specs.Prelude.{◌≡◌, true, OnOk};
ghost use Rattle.bdb_base.specs.Bases.{Contents, IsValid};
ghost use Rattle.bdb_base.specs.Changes.{with_statements, without_statements};
ghost use Rattle.bdb_base.specs.Order.{statement_cmp};
ghost use Rattle.bdb_base.specs.SortedSet.{ascending};
ghost use Rattle.bdb_undo.specs.Changes.{CanName, Leads, CanLeadTo, LeadsFrom, named_back, named_forth};

use crate::change::{Change, Named};
use bdb_base::{Base, Exact, Stmt};
use std::alloc::{AllocError, Global};

/// Takes a change back: whichever base the change leads from to the one held, that one comes out. The statements that came
/// are taken away first, then the name that was added (or he who left comes back), and then the statements that went are put
/// back; so each base between is valid. The only error is running out of memory, after which nothing is said of the base but
/// that it is valid, by the invariant of `Base`.
pub fn change_back(alloc: Global, base: &mut Base, change: &Change) -> Result<(), AllocError>
    requires { CanLeadTo change.now base.old }
    ensures { (a : Contents) → Leads change.now a base.old → OnOk result (base.new ≡ a) }
{
    take_each(base, change.come.as_slice());
    name_back(alloc, base, &change.named)?;
    put_each(alloc, base, change.gone.as_slice())?;
    Ok(())
}

/// Makes a change again: whichever base the change leads to from the one held, that one comes out. The statements that go
/// are taken away first, then the name is added (or the user leaves), and then the statements that come are put in; so each
/// base between is valid. The only error is running out of memory, after which nothing is said of the base but that it is
/// valid, by the invariant of `Base`.
pub fn change_forth(alloc: Global, base: &mut Base, change: &Change) -> Result<(), AllocError>
    requires { LeadsFrom change.now base.old }
    ensures { (b : Contents) → Leads change.now base.old b → OnOk result (base.new ≡ b) }
{
    take_each(base, change.gone.as_slice());
    name_forth(alloc, base, &change.named)?;
    put_each(alloc, base, change.come.as_slice())?;
    Ok(())
}

/// Takes statements away.
fn take_each(base: &mut Base, stmts: &[Stmt])
    ensures { base.new ≡ record base.old { stmts = without_statements base.old.stmts stmts.now } }
{
    for stmt in stmts {
        base.take(stmt);
    }
}

/// Lets statements stand.
fn put_each(alloc: Global, base: &mut Base, stmts: &[Stmt]) -> Result<(), AllocError>
    requires sorted { ascending statement_cmp base.old.stmts ≡ true }
    requires valid { IsValid base.old.catalog (with_statements base.old.stmts stmts.now) }
    ensures { OnOk result
        (base.new ≡ record base.old { stmts = with_statements base.old.stmts stmts.now }) }
{
    for stmt in stmts {
        base.put(stmt.try_clone(alloc)?)?;
    }
    Ok(())
}

/// Takes away the user or the relation that a change added last, or lets the user who left come back.
fn name_back(alloc: Global, base: &mut Base, named: &Named) -> Result<(), AllocError>
    requires can { CanName named.now (named_back named.now base.old.catalog) }
    requires last { base.old.catalog ≡ named_forth named.now
        (named_back named.now base.old.catalog) }
    requires valid { IsValid (named_back named.now base.old.catalog) base.old.stmts }
    ensures { OnOk result
        (base.new ≡ record base.old { catalog = named_back named.now base.old.catalog }) }
{
    match named {
        Named::Nothing => Ok(()),
        Named::UserAdded { name: _ } => {
            base.pop_user();
            Ok(())
        }
        Named::RelationAdded { def: _ } => {
            base.pop_relation();
            Ok(())
        }
        Named::UserDropped { uid, name } => {
            base.revive_user(*uid, name.try_clone(alloc)?);
            Ok(())
        }
    }
}

/// Adds the user or the relation that a change added, or lets the user leave who left.
fn name_forth(alloc: Global, base: &mut Base, named: &Named) -> Result<(), AllocError>
    requires can { CanName named.now base.old.catalog }
    requires valid { IsValid (named_forth named.now base.old.catalog) base.old.stmts }
    ensures { OnOk result
        (base.new ≡ record base.old { catalog = named_forth named.now base.old.catalog }) }
{
    match named {
        Named::Nothing => Ok(()),
        Named::UserAdded { name } => base.add_user(name.try_clone(alloc)?),
        Named::RelationAdded { def } => base.add_relation(def.try_clone(alloc)?),
        Named::UserDropped { uid, name: _ } => {
            let _count = base.drop_user(*uid);
            Ok(())
        }
    }
}
