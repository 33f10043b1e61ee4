// Refusals that name something, each with a copy of the name. Where there is no memory for it, that is the refusal.
ghost use Rattle.std.specs.Prelude.{◌≡◌, ◌≢◌, [], None, IfOk};
ghost use Rattle.std.specs.Option.{unwrap_or};

use crate::bound::BindError;
use bdb_base::{Exact, Txt};
use bdb_syntax::RawCol;
use std::alloc::{AllocError, Global};

/// The catalog has no relation of this name.
pub fn unknown_relation(alloc: Global, name: &Txt) -> BindError
    ensures { result ≢ BindError.Memory → result ≡ BindError.Relation name.now }
{
    match name.try_clone(alloc) {
        Ok(name) => BindError::Relation(name),
        Err(_) => BindError::Memory,
    }
}

/// No user has this name.
pub fn unknown_user(alloc: Global, name: &Txt) -> BindError
    ensures { result ≢ BindError.Memory → result ≡ BindError.User name.now }
{
    match name.try_clone(alloc) {
        Ok(name) => BindError::User(name),
        Err(_) => BindError::Memory,
    }
}

/// The relation has no column of this name.
pub fn unknown_column(alloc: Global, name: &Txt) -> BindError
    ensures { result ≢ BindError.Memory → result ≡ BindError.Column None name.now }
{
    match name.try_clone(alloc) {
        Ok(col) => BindError::Column { alias: None, col },
        Err(_) => BindError::Memory,
    }
}

/// A user has this name.
pub fn taken_user(alloc: Global, name: &Txt) -> BindError
    ensures { result ≢ BindError.Memory → result ≡ BindError.TakenUser name.now }
{
    match name.try_clone(alloc) {
        Ok(name) => BindError::TakenUser(name),
        Err(_) => BindError::Memory,
    }
}

/// A relation or an earlier column has this name, or it is `Users`.
pub fn taken_name(alloc: Global, name: &Txt) -> BindError
    ensures { result ≢ BindError.Memory → result ≡ BindError.TakenName name.now }
{
    match name.try_clone(alloc) {
        Ok(name) => BindError::TakenName(name),
        Err(_) => BindError::Memory,
    }
}

/// This column is joined to another kind.
pub fn wrong_kind(alloc: Global, name: &Txt) -> BindError
    ensures { result ≢ BindError.Memory → result ≡ BindError.Kind None name.now }
{
    match name.try_clone(alloc) {
        Ok(col) => BindError::Kind { alias: None, col },
        Err(_) => BindError::Memory,
    }
}

/// An earlier item has this alias.
pub fn repeated_alias(alloc: Global, alias: &Txt) -> BindError
    ensures { result ≢ BindError.Memory → result ≡ BindError.AliasTwice alias.now }
{
    match alias.try_clone(alloc) {
        Ok(alias) => BindError::AliasTwice(alias),
        Err(_) => BindError::Memory,
    }
}

/// No item has a column's alias.
pub fn unknown_alias(alloc: Global, col: &RawCol) -> BindError
    ensures { result ≢ BindError.Memory → result ≡ BindError.Alias (unwrap_or col.now.alias []) }
{
    match alias_of(alloc, col) {
        Ok(alias) => BindError::Alias(alias),
        Err(_) => BindError::Memory,
    }
}

/// The alias of a column, or an empty text.
fn alias_of(alloc: Global, col: &RawCol) -> Result<Txt, AllocError>
    ensures { IfOk result (λ alias. alias ≡ unwrap_or col.now.alias []) }
{
    match &col.alias {
        Some(alias) => alias.try_clone(alloc),
        None => Txt::try_new(alloc, ""),
    }
}

/// A column's item does not have it, or a column after BELIEF isn't the number of a user.
pub fn missing_column(alloc: Global, col: &RawCol) -> BindError
    ensures { result ≢ BindError.Memory → result ≡ BindError.Column col.now.alias col.now.col }
{
    match col.try_clone(alloc) {
        Ok(copy) => BindError::Column {
            alias: copy.alias,
            col: copy.col,
        },
        Err(_) => BindError::Memory,
    }
}

/// This column of a query is joined to another kind.
pub fn wrong_query_kind(alloc: Global, col: &RawCol) -> BindError
    ensures { result ≢ BindError.Memory → result ≡ BindError.Kind col.now.alias col.now.col }
{
    match col.try_clone(alloc) {
        Ok(copy) => BindError::Kind {
            alias: copy.alias,
            col: copy.col,
        },
        Err(_) => BindError::Memory,
    }
}
