// What a file's schema is, as the open has read it.
ghost use Rattle.std.specs.Prelude.{◌≡◌, [], ◌∷◌, true, IsTrue};
ghost use Rattle.sqlite_value.specs.Keys.{plain};
ghost use Rattle.sqlite_schema.specs.declared.schema.Kind.TheVariants.{Integer, Blob};
ghost use Rattle.sqlite.specs.Held.{state};
ghost use Rattle.sqlite.specs.State.{IsLive};
ghost use Rattle.bdb_sql.specs.Kept.{kept_column, kept_table, kept_index, kept_schema, no_schema};

use sqlite::{Alter, Connection};
use sqlite_items::Items;
use sqlite_schema::code::Terms;
use sqlite_schema::schema::{Column, Index, Kind, Schema, Stamps, Table};
use sqlite_value::keys::{Collation, Order};
use sqlite_value::value::Value;

/// What a file's schema is.
pub enum FileSchema {
    Nothing,
    /// The one table as the keeper makes it, and nothing else.
    Table,
    Other,
}

/// What the schema of a connection is. It runs no statement.
pub fn schema_of<S: Alter>(conn: &Connection<S>) -> FileSchema
    ensures nothing { result ≡ FileSchema.Nothing → (state S.Store conn.now).now.schema
        ≡ no_schema }
    ensures table { result ≡ FileSchema.Table → (state S.Store conn.now).now.schema ≡ kept_schema }
    ensures live { IsLive (state S.Store conn.now) }
{
    let schema = conn.schema();
    if is_nothing(schema) {
        return FileSchema::Nothing;
    }
    if is_kept(schema) {
        FileSchema::Table
    } else {
        FileSchema::Other
    }
}

/// Whether there is nothing at all.
fn is_nothing(schema: &Schema) -> bool
    ensures { IsTrue result → schema.now ≡ no_schema }
{
    schema.tables.is_empty() && schema.indexes.is_empty() && schema.views.is_empty()
}

/// Whether there is the one table, and nothing else. Triggers and all that SQLite's crate doesn't understand count as views.
fn is_kept(schema: &Schema) -> bool
    ensures { IsTrue result → schema.now ≡ kept_schema }
{
    is_one_table(schema.tables.as_slice())
        && is_one_index(schema.indexes.as_slice())
        && schema.views.is_empty()
}

/// Whether these are the one table.
fn is_one_table(tables: &[Table]) -> bool
    ensures { IsTrue result → tables.now ≡ kept_table ∷ [] }
{
    match tables {
        [table] => is_kept_table(table),
        _ => false,
    }
}

/// Whether a table is the one that the keeper makes.
fn is_kept_table(table: &Table) -> bool
    ensures { IsTrue result → table.now ≡ kept_table }
{
    table.name.as_slice() == b"kept".as_slice()
        && table.tree == 0
        && are_columns(table.columns.as_slice())
        && table.key.is_none()
        && table.primary.as_slice() == [1, 2].as_slice()
        && are_uniques(table.uniques.as_slice())
        && are_orders(table.orders.as_slice())
        && is_without_terms(&table.checks)
        && table.references.is_empty()
        && table.computed.is_empty()
        && is_without_stamps(&table.stamps)
        && !table.is_counted
}

/// Whether these are the three columns.
fn are_columns(columns: &[Column]) -> bool
    ensures { IsTrue result → columns.now ≡ kept_table.columns }
{
    match columns {
        [tab, key, content] => {
            is_column(tab, b"tab", Kind::Integer)
                && is_column(key, b"k", Kind::Blob)
                && is_column(content, b"v", Kind::Blob)
        }
        _ => false,
    }
}

/// Whether a column has this name and kind, takes values of its kind alone, and takes no null.
fn is_column(column: &Column, name: &[u8], kind: Kind) -> bool
    ensures { IsTrue result → column.now ≡ kept_column name.now kind }
{
    column.name.as_slice() == name
        && column.kind == kind
        && column.is_strict
        && column.not_null
        && is_null(&column.default)
        && column.collation == Collation::Binary
}

/// Whether a value is null.
fn is_null(value: &Value) -> bool
    ensures { IsTrue result → value.now ≡ Value.Null }
{
    match value {
        Value::Null => true,
        _ => false,
    }
}

/// Whether these are the one key, of table and key.
fn are_uniques(uniques: &[Items<usize>]) -> bool
    ensures { IsTrue result → uniques.now ≡ kept_table.uniques }
{
    match uniques {
        [key] => is_key(key),
        _ => false,
    }
}

/// Whether these are the columns of the key.
fn is_key(columns: &Items<usize>) -> bool
    ensures { IsTrue result → columns.now ≡ 1 ∷ 2 ∷ [] }
{
    columns.as_slice() == [1, 2].as_slice()
}

/// Whether these are the one order, by bytes.
fn are_orders(orders: &[Order]) -> bool
    ensures { IsTrue result → orders.now ≡ plain ∷ [] }
{
    match orders {
        [order] => is_plain(*order),
        _ => false,
    }
}

/// Whether an order is that by bytes.
fn is_plain(order: Order) -> bool
    ensures { IsTrue result → order ≡ plain }
{
    order.digits == 0
}

/// Whether there are no terms.
fn is_without_terms(terms: &Terms) -> bool
    ensures { IsTrue result → terms.now ≡ [] }
{
    terms.roots.is_empty()
}

/// Whether no default reads the time.
fn is_without_stamps(stamps: &Stamps) -> bool
    ensures { IsTrue result → stamps.now ≡ kept_table.stamps }
{
    stamps.places.is_empty() && is_without_terms(&stamps.terms) && stamps.formats.is_empty()
}

/// Whether these are the index of the key.
fn is_one_index(indexes: &[Index]) -> bool
    ensures { IsTrue result → indexes.now ≡ kept_index ∷ [] }
{
    match indexes {
        [index] => is_kept_index(index),
        _ => false,
    }
}

/// Whether an index is that of the key.
fn is_kept_index(index: &Index) -> bool
    ensures { IsTrue result → index.now ≡ kept_index }
{
    index.name.as_slice() == b"sqlite_autoindex_kept_1".as_slice()
        && index.tree == 1
        && index.table == 0
        && is_key(&index.columns)
        && is_plain(index.order)
        && index.is_unique
}
