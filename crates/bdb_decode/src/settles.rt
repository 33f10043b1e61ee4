// Whether the rows of a world are settled over those of another one.
ghost use Rattle.std.specs.Prelude.{◌≡◌, ◌&&◌, true, is_some};
ghost use Rattle.std.specs.List.{list_all};
ghost use Rattle.bdb_base.specs.Bases.{key_lengths};
ghost use Rattle.bdb_base.specs.Clash.{clash};
ghost use Rattle.bdb_val.specs.Settling.{barred_by, mark_in, numbers_are_apart};
ghost use Rattle.bdb_decode.specs.Settles.{are_settled, has_sign, is_fitting, is_passed};

use crate::keys::key_length_in;
use bdb_base::{Catalog, Sign, clash};
use bdb_val::StoredRow;

/// Whether a world with these explicit rows and these inherited ones is settled over the rows of the world to which its suffix
/// link leads, with keys as long as the relations of the catalog say. Where the rows come in one order each list is gone along
/// once.
pub fn are_settled(
    catalog: &Catalog,
    stated: &[StoredRow],
    inherited: &[StoredRow],
    from: &[StoredRow],
) -> bool
    requires from { numbers_are_apart from.now ≡ true }
    ensures { result ≡ are_settled (key_lengths catalog.now.rels)
        stated.now inherited.now from.now }
{
    all_fit(catalog, stated, inherited, from) && all_passed(catalog, stated, inherited, from)
}

// Whether each inherited row is passed on from the other world.
fn all_fit(
    catalog: &Catalog,
    stated: &[StoredRow],
    inherited: &[StoredRow],
    from: &[StoredRow],
) -> bool
    requires { numbers_are_apart from.now ≡ true }
    ensures { result ≡ list_all (is_fitting (key_lengths catalog.now.rels) stated.now from.now)
        inherited.now }
{
    let mut at = 0;
    for row in inherited {
        if !is_fitting(catalog, stated, from, row, &mut at) {
            return false;
        }
    }
    true
}

// Whether a row clashes with no explicit one, and its tuple has its sign in the other world. The search begins at a place.
fn is_fitting(
    catalog: &Catalog,
    stated: &[StoredRow],
    from: &[StoredRow],
    row: &StoredRow,
    at: &mut usize,
) -> bool
    requires { numbers_are_apart from.now ≡ true }
    ensures { result ≡ is_fitting (key_lengths catalog.now.rels) stated.now from.now row.now }
{
    if is_barred(catalog, stated, row) {
        return false;
    }
    has_sign(row.mark.0, mark_from(from, row.tid, at))
}

// Whether there is a row of a sign.
fn has_sign(sign: Sign, mark: Option<(Sign, bool)>) -> bool
    ensures { result ≡ has_sign sign mark }
{
    match mark {
        Some((other, _)) => other == sign,
        None => false,
    }
}

// Whether each row of the other world is passed on, or clashes with an explicit one.
fn all_passed(
    catalog: &Catalog,
    stated: &[StoredRow],
    inherited: &[StoredRow],
    from: &[StoredRow],
) -> bool
    ensures { result ≡ list_all (is_passed (key_lengths catalog.now.rels) stated.now inherited.now)
        from.now }
{
    let mut at = 0;
    for row in from {
        if !is_passed(catalog, stated, inherited, row, &mut at) {
            return false;
        }
    }
    true
}

// Whether a row clashes with an explicit one, or its tuple has a row. The search begins at a place.
fn is_passed(
    catalog: &Catalog,
    stated: &[StoredRow],
    inherited: &[StoredRow],
    row: &StoredRow,
    at: &mut usize,
) -> bool
    ensures { result ≡ is_passed (key_lengths catalog.now.rels) stated.now inherited.now row.now }
{
    if is_barred(catalog, stated, row) {
        return true;
    }
    if first_mark(stated, row.tid).is_some() {
        return true;
    }
    has_from(inherited, row.tid, at)
}

// Whether a row clashes with an explicit one.
fn is_barred(catalog: &Catalog, rows: &[StoredRow], row: &StoredRow) -> bool
    ensures { result ≡ barred_by (key_lengths catalog.now.rels)
        rows.now row.now.tuple row.now.mark.0 }
{
    is_barred_by(key_length_in(catalog, &row.tuple), rows, row)
}

// The same, where keys have the length `n`.
fn is_barred_by(n: u32, rows: &[StoredRow], row: &StoredRow) -> bool
    ensures { result ≡ barred_by (λ _. n) rows.now row.now.tuple row.now.mark.0 }
{
    rows.iter().any(|other| bars(n, other, row))
}

// Whether a row is explicit, and another one clashes with it.
fn bars(n: u32, other: &StoredRow, row: &StoredRow) -> bool
    ensures { result ≡ (other.now.mark.1 && clash (λ _. n)
        row.now.tuple row.now.mark.0 other.now.tuple other.now.mark.0) }
{
    other.mark.1 && clash(n, &row.tuple, row.mark.0, &other.tuple, other.mark.0)
}

// The mark of a tuple's row. The search begins at a place, and leaves that of the row there.
fn mark_from(rows: &[StoredRow], tid: u32, at: &mut usize) -> Option<(Sign, bool)>
    requires { numbers_are_apart rows.now ≡ true }
    ensures { result ≡ mark_in rows.now tid }
{
    for place in *at..rows.len() {
        let row = &rows[place];
        if row.tid == tid {
            *at = place;
            return Some(row.mark);
        }
    }
    first_mark(rows, tid)
}

// Whether a tuple has a row. The search begins at a place, and leaves that of the row there.
fn has_from(rows: &[StoredRow], tid: u32, at: &mut usize) -> bool
    ensures { result ≡ is_some (mark_in rows.now tid) }
{
    for place in *at..rows.len() {
        let row = &rows[place];
        if row.tid == tid {
            *at = place;
            return true;
        }
    }
    first_mark(rows, tid).is_some()
}

// The mark of the first row of a tuple.
fn first_mark(rows: &[StoredRow], tid: u32) -> Option<(Sign, bool)>
    ensures { result ≡ mark_in rows.now tid }
{
    for row in rows {
        if row.tid == tid {
            return Some(row.mark);
        }
    }
    None
}
