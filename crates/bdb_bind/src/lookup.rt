// Looking names up in a catalog.
ghost use Rattle.std.specs.Prelude.{◌≡◌, ◌<◌, ◌≤◌, length, IfSome};
ghost use Rattle.bdb_base.specs.Same.{same_text};
ghost use Rattle.bdb_base.specs.Bases.{is_called};
ghost use Rattle.bdb_bind.specs.Lookup.{uid_of, relation_number, columns_of, column_at, kind_at};

use bdb_base::{ColDef, Kind, RelDef, Txt, UserSlot, is_called, is_same_text};

/// The uid of a live user's name: the places of users are numbered from 1.
pub fn uid_of(users: &[UserSlot], name: &Txt) -> Option<usize>
    ensures uid { result ≡ uid_of users.now name.now }
    ensures within { IfSome result (λ uid. uid ≤ length users.now) }
{
    for (at, user) in users.iter().enumerate() {
        if is_called(name, user) {
            return Some(at + 1);
        }
    }
    None
}

/// The number of a relation: relations are numbered from 0.
pub fn number_of(rels: &[RelDef], name: &Txt) -> Option<usize>
    ensures number { result ≡ relation_number rels.now name.now }
    ensures within { IfSome result (λ number. number < length rels.now) }
{
    for (at, rel) in rels.iter().enumerate() {
        if is_same_text(&rel.name, name) {
            return Some(at);
        }
    }
    None
}

/// The columns of the relation of a name.
pub fn columns_of<'a>(rels: &'a [RelDef], name: &Txt) -> &'a [ColDef]
    ensures { result.now ≡ columns_of rels.now name.now }
{
    for rel in rels {
        if is_same_text(&rel.name, name) {
            return rel.cols.as_slice();
        }
    }
    &[]
}

/// The place of a column.
pub fn column_at(cols: &[ColDef], name: &Txt) -> Option<usize>
    ensures place { result ≡ column_at cols.now name.now }
    ensures within { IfSome result (λ place. place < length cols.now) }
{
    for (at, col) in cols.iter().enumerate() {
        if is_same_text(&col.name, name) {
            return Some(at);
        }
    }
    None
}

/// The kind of a column.
pub fn kind_at(cols: &[ColDef], name: &Txt) -> Option<Kind>
    ensures { result ≡ kind_at cols.now name.now }
{
    for col in cols {
        if is_same_text(&col.name, name) {
            return Some(col.kind);
        }
    }
    None
}
