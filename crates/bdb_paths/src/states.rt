// The states of a list of statements.
ghost use Rattle.std.specs.Prelude.{◌≡◌, ◌≤◌, ◌||◌, ℕ, List, [], true, length, take, IfOk, OnOk};
ghost use Rattle.bdb_base.specs.Order.{path_cmp};
ghost use Rattle.bdb_base.specs.Segments.{is_prefix};
ghost use Rattle.bdb_base.specs.SortedSet.{is_member, ascending};
ghost use Rattle.bdb_base.specs.States.{states_of};

use bdb_base::{List, Path, PathError, Stmt, contains, put, put_copy};
use std::alloc::{AllocError, Global};

/// The states: the empty path and each prefix of a statement's path, in order, each once. A statement whose path is
/// there already is passed by one look-up.
pub fn states_of(alloc: Global, stmts: &[Stmt]) -> Result<List<Path>, AllocError>
    ensures { IfOk result (λ states. states ≡ states_of stmts.now) }
{
    let mut states = List::new(alloc);
    let root = empty_path(alloc)?;
    let _first = put(&mut states, root)?;
    for x in stmts {
        if contains(states.as_slice(), &x.path) {
            continue;
        }
        put_prefixes(alloc, &mut states, &x.path)?;
    }
    Ok(states)
}

/// Puts all prefixes of a path into a set of paths.
fn put_prefixes(alloc: Global, states: &mut List<Path>, path: &Path) -> Result<(), AllocError>
    requires sorted { ascending path_cmp states.old ≡ true }
    ensures sorted { OnOk result (ascending path_cmp states.new ≡ true) }
    ensures members { OnOk result
        ((w : List ℕ) → is_member path_cmp states.new w
        ≡ (is_member path_cmp states.old w || is_prefix w path.now)) }
{
    for len in 0..path.len() {
        let prefix = prefix_of(alloc, path, len)?;
        let _added = put(states, prefix)?;
    }
    let _whole = put_copy(alloc, states, path)?;
    Ok(())
}

/// The first users of a path.
fn prefix_of(alloc: Global, path: &Path, len: usize) -> Result<Path, AllocError>
    requires { len ≤ length path.now }
    ensures { IfOk result (λ prefix. prefix ≡ take len path.now) }
{
    match Path::try_new(alloc, &path.as_slice()[..len]) {
        Ok(prefix) => Ok(prefix),
        Err(PathError::Memory) => Err(AllocError),
        Err(PathError::Repeat) => unreachable!(),
    }
}

/// The path with no users.
fn empty_path(alloc: Global) -> Result<Path, AllocError>
    ensures { IfOk result (λ path. path ≡ []) }
{
    match Path::try_new(alloc, &[]) {
        Ok(path) => Ok(path),
        Err(PathError::Memory) => Err(AllocError),
        Err(PathError::Repeat) => unreachable!(),
    }
}
