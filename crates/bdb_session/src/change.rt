// The commands that take statements away, or change them.
ghost use Rattle.std.specs.Prelude.{◌≡◌, true, None, map, IfOk, OnOk};
ghost use Rattle.bdb_base.specs.Changes.{changed_statement};
ghost use Rattle.bdb_bind.specs.Fits.{fits_catalog};
ghost use Rattle.bdb_catalog.specs.Bases.{SomeHasUsers};
ghost use Rattle.bdb_catalog.specs.Taking.{AreTaken};
ghost use Rattle.bdb_session.specs.Bounds.{WritesAsTold};
ghost use Rattle.bdb_session.specs.Known.{AgreesOnSome};
ghost use Rattle.bdb_session.specs.Machine.{bound_outcome};
ghost use Rattle.bdb_session.specs.Within.{TellsChange, TellsWithin, sized};
ghost use Rattle.bdb_val.specs.Steps.{IsChanging};

use crate::changes::{replacement, statements_taken};
use crate::error::StopError;
use crate::reply::Reply;
use crate::session::Session;
use crate::transact::stop_from;
use bdb_base::{Cond, Exact, List, Path, SetCol, Sign, Stmt, changed};
use bdb_bind::Bound;
use bdb_canon::Counts;
use bdb_catalog::taken;
use bdb_keep::Keeper;
use bdb_undo::Change;
use bdb_update::{change_statements, drop_statements};
use std::alloc::{AllocError, Global};

/// Which statements a command is about: those of exactly this path, sign and relation whose tuples meet all tests.
#[derive(Drop)]
pub(crate) struct Selection {
    pub path: Path,
    pub sign: Sign,
    pub rel: u32,
    pub conds: List<Cond>,
}

impl Selection {
    /// The statements of this path, sign and relation whose tuples meet these tests.
    pub(crate) fn new(path: Path, sign: Sign, rel: u32, conds: List<Cond>) -> Self
        ensures { result ≡ record { path = path; sign = sign; rel = rel; conds = conds } }
    {
        Selection {
            path,
            sign,
            rel,
            conds,
        }
    }
}

impl Session {
    /// Takes statements away within a transaction. `counts` become the sizes of the base after it. One alone takes no more writes,
    /// for each place at which the rows differ, than its path has users, and two; and eight more in all. Several take as many each,
    /// one after the other.
    pub(crate) fn delete<K: Keeper>(
        &self,
        keeper: &mut K,
        counts: &mut Counts,
        change: &mut Option<Change>,
        selection: &Selection,
    ) -> Result<Reply, StopError>
        requires running { (K.seen keeper.old).running ≡ true }
        requires agrees { AgreesOnSome (K.seen keeper.old).kept (sized self.now counts.old) }
        requires nothing { change.old ≡ None }
        requires fits { fits_catalog self.now.catalog
            (Bound.Delete selection.now.path selection.now.sign selection.now.rel
            selection.now.conds) ≡ true }
        ensures told { TellsWithin
            (λ s. bound_outcome s
            (Bound.Delete selection.now.path selection.now.sign selection.now.rel
            selection.now.conds))
            (sized self.now counts.old) (sized self.now counts.new) (K.seen keeper.old)
            (K.seen keeper.new) result }
        ensures change { TellsChange
            (λ s. bound_outcome s
            (Bound.Delete selection.now.path selection.now.sign selection.now.rel
            selection.now.conds))
            (sized self.now counts.old) change.new (K.seen keeper.old) result }
        ensures writes { WritesAsTold
            (Bound.Delete selection.now.path selection.now.sign selection.now.rel
            selection.now.conds) (sized self.now counts.old) (K.seen keeper.old) (K.seen keeper.new)
            result }
        ensures accepted { IfOk result (λ r. r.accepted ≡ true) }
    {
        let stmts = match selected(self.alloc, keeper, selection) {
            Ok(stmts) => stmts,
            Err(stop) => return Err(stop),
        };
        match drop_statements(self.alloc, keeper, counts, stmts.as_slice()) {
            Ok(()) => {
                let count = stmts.len();
                *change = statements_taken(self.alloc, stmts);
                self.tell_count(keeper, count)
            }
            Err(error) => Err(stop_from(error)),
        }
    }

    /// Within a transaction, takes statements away and adds each of them changed, or refuses to where two statements of the path
    /// would clash or the base would pass a limit. `counts` become the sizes of the base after it. Each that goes and each that comes
    /// takes as many writes as one alone; what is refused takes none.
    pub(crate) fn update<K: Keeper>(
        &self,
        keeper: &mut K,
        counts: &mut Counts,
        change: &mut Option<Change>,
        selection: &Selection,
        sets: &List<SetCol>,
    ) -> Result<Reply, StopError>
        requires running { (K.seen keeper.old).running ≡ true }
        requires agrees { AgreesOnSome (K.seen keeper.old).kept (sized self.now counts.old) }
        requires nothing { change.old ≡ None }
        requires fits { fits_catalog self.now.catalog
            (Bound.Update selection.now.path selection.now.sign selection.now.rel sets.now
            selection.now.conds) ≡ true }
        ensures told { TellsWithin
            (λ s. bound_outcome s
            (Bound.Update selection.now.path selection.now.sign selection.now.rel sets.now
            selection.now.conds))
            (sized self.now counts.old) (sized self.now counts.new) (K.seen keeper.old)
            (K.seen keeper.new) result }
        ensures change { TellsChange
            (λ s. bound_outcome s
            (Bound.Update selection.now.path selection.now.sign selection.now.rel sets.now
            selection.now.conds))
            (sized self.now counts.old) change.new (K.seen keeper.old) result }
        ensures writes { WritesAsTold
            (Bound.Update selection.now.path selection.now.sign selection.now.rel sets.now
            selection.now.conds) (sized self.now counts.old) (K.seen keeper.old) (K.seen keeper.new)
            result }
    {
        let gone = match selected(self.alloc, keeper, selection) {
            Ok(gone) => gone,
            Err(stop) => return Err(stop),
        };
        let come = match changed_statements(self.alloc, gone.as_slice(), sets.as_slice()) {
            Ok(come) => come,
            Err(_) => {
                keeper.undo();
                return Err(StopError::Memory);
            }
        };
        let path = selection.path.as_slice();
        let (gone, come) = (gone.as_slice(), come.as_slice());
        let replaced = match replacement(self.alloc, keeper, counts, gone, come) {
            Ok(replaced) => replaced,
            Err(error) => return Err(stop_from(error)),
        };
        match change_statements(self.alloc, keeper, counts, path, gone, come) {
            Ok(()) => {
                *change = replaced;
                self.tell_count(keeper, gone.len())
            }
            Err(error) => self.refuse_change(keeper, error),
        }
    }
}

/// Copies of the statements that a command is about, in order. They are read from the tables.
fn selected<K: Keeper>(
    alloc: Global,
    keeper: &mut K,
    selection: &Selection,
) -> Result<List<Stmt>, StopError>
    requires base { SomeHasUsers (K.seen keeper.old).kept selection.now.path }
    ensures taken { IfOk result
        (AreTaken (K.seen keeper.old).kept selection.now.path selection.now.sign selection.now.rel
        selection.now.conds) }
    ensures kept { OnOk result ((K.seen keeper.new).kept ≡ (K.seen keeper.old).kept) }
    ensures writes { (K.seen keeper.new).writes ≡ (K.seen keeper.old).writes }
    ensures changing { IsChanging (K.seen keeper.old) (K.seen keeper.new) result StopError.Fault }
{
    let path = &selection.path;
    let conds = &selection.conds;
    match taken(alloc, keeper, path, selection.sign, selection.rel, conds) {
        Ok(stmts) => Ok(stmts),
        Err(error) => Err(stop_from(error)),
    }
}

/// Copies of statements with columns of their tuples set.
fn changed_statements(
    alloc: Global,
    stmts: &[Stmt],
    sets: &[SetCol],
) -> Result<List<Stmt>, AllocError>
    ensures { IfOk result (λ xs. xs ≡ map (changed_statement sets.now) stmts.now) }
{
    let mut next = List::new(alloc);
    for stmt in stmts {
        next.push(changed_statement(alloc, stmt, sets)?)?;
    }
    Ok(next)
}

/// A copy of a statement with columns of its tuple set.
fn changed_statement(alloc: Global, stmt: &Stmt, sets: &[SetCol]) -> Result<Stmt, AllocError>
    ensures { IfOk result (λ x. x ≡ changed_statement sets.now stmt.now) }
{
    let path = stmt.path.try_clone(alloc)?;
    let tuple = changed(alloc, &stmt.tuple, sets)?;
    Ok(Stmt {
        path,
        sign: stmt.sign,
        tuple,
    })
}
