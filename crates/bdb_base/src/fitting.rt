// Whether texts are plain, and values fit the columns of a relation.
ghost use Rattle.std.specs.Prelude.{◌≡◌, nat_le};
ghost use Rattle.std.specs.List.{list_all, slice_get};
ghost use Rattle.bdb_base.specs.Bases.{is_plain, is_written, fits_kind, fits_columns, fits_definition};

use crate::kinds::{ColDef, Kind, RelDef, Value};
use crate::limits::LONGEST_TEXT;
use crate::text::Txt;

/// Whether values fit the relation of a number, if there is one: a value for each column, of its kind.
pub fn fits_relation(rels: &[RelDef], rel: u32, vals: &[Value]) -> bool
    ensures { result ≡ fits_definition (slice_get rels.now rel) vals.now }
{
    match rels.get(rel as usize) {
        Some(def) => fits_columns(def.cols.as_slice(), vals),
        None => false,
    }
}

fn fits_columns(cols: &[ColDef], vals: &[Value]) -> bool
    ensures { result ≡ fits_columns cols.now vals.now }
{
    match cols {
        [] => vals.is_empty(),
        [col, cols @ ..] => match vals {
            [] => false,
            [value, vals @ ..] => fits_kind(col.kind, value) && fits_columns(cols, vals),
        },
    }
}

fn fits_kind(kind: Kind, value: &Value) -> bool
    ensures { result ≡ fits_kind kind value.now }
{
    match (kind, value) {
        (Kind::Int, Value::Int(_)) => true,
        (Kind::Text, Value::Text(text)) => is_plain(text),
        _ => false,
    }
}

/// Whether a text is plain: not too long, and without a character below U+0020.
pub fn is_plain(text: &Txt) -> bool
    ensures { result ≡ is_plain text.now }
{
    text.len() <= LONGEST_TEXT && are_printable(text.as_str().as_bytes())
}

/// Whether a value is one that tuples may have: a text has to be plain.
pub fn is_written(value: &Value) -> bool
    ensures { result ≡ is_written value.now }
{
    match value {
        Value::Int(_) => true,
        Value::Text(text) => is_plain(text),
    }
}

/// Whether no byte is one of a character below U+0020.
pub fn are_printable(bytes: &[u8]) -> bool
    ensures { result ≡ list_all (λ c. nat_le 32 c) bytes.now }
{
    bytes.iter().all(|byte| 32 <= *byte)
}
