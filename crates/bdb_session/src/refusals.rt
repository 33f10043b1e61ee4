// Refusals to bind and clashes, as refusals of a command.
ghost use Rattle.std.specs.Prelude.{◌≡◌, IfOk};
ghost use Rattle.bdb_session.specs.Machine.{refusal_from, clash_with};

use bdb_base::{Exact, Stmt};
use bdb_bind::BindError;
use bdb_render::Refusal;
use std::alloc::{AllocError, Global};

/// A refusal to bind, as a refusal of the command; running out of memory is none.
pub(crate) fn refusal_from(error: BindError) -> Option<Refusal>
    ensures { result ≡ refusal_from error }
{
    match error {
        BindError::Text => Some(Refusal::Text),
        BindError::Items => Some(Refusal::Items),
        BindError::Relation(name) => Some(Refusal::Relation(name)),
        BindError::User(name) => Some(Refusal::User(name)),
        BindError::AliasTwice(alias) => Some(Refusal::AliasTwice(alias)),
        BindError::Alias(alias) => Some(Refusal::Alias(alias)),
        BindError::Column { alias, col } => Some(Refusal::Column { alias, col }),
        BindError::TakenUser(name) => Some(Refusal::TakenUser(name)),
        BindError::TakenName(name) => Some(Refusal::TakenName(name)),
        BindError::KeyLength(length) => Some(Refusal::KeyLength(length)),
        BindError::Repeat => Some(Refusal::Repeat),
        BindError::Deep => Some(Refusal::Deep),
        BindError::Arity => Some(Refusal::Arity),
        BindError::Kind { alias, col } => Some(Refusal::Kind { alias, col }),
        BindError::Unsafe { alias, col } => Some(Refusal::Unsafe { alias, col }),
        BindError::Memory => None,
    }
}

/// The clash with a statement.
pub(crate) fn clash_with(alloc: Global, stmt: &Stmt) -> Result<Refusal, AllocError>
    ensures { IfOk result (λ r. r ≡ clash_with stmt.now) }
{
    let tuple = stmt.tuple.try_clone(alloc)?;
    Ok(Refusal::Clash {
        sign: stmt.sign,
        tuple,
    })
}
