// Why a command is refused, and the reply to it.
ghost use Rattle.std.specs.Prelude.{◌≡◌, ◌++◌, codes, IfOk, OnOk};
ghost use Rattle.bdb_base.specs.Texts.{dotted, int_text, quoted, named_column};
ghost use Rattle.bdb_render.specs.Refusals.{cause_text, refusal_reply, what_text};
ghost use Rattle.bdb_render.specs.Replies.{signed_text};

use crate::lines;
use bdb_base::{Catalog, List, Sign, Tuple, Txt, What, append_dotted, append_int, append_quoted};
use std::alloc::{AllocError, Global};

/// Why a command, or the rest of a script, is refused.
#[derive(Drop)]
pub enum Refusal {
    /// The command has too many bytes.
    Long,
    /// The command is outside the grammar.
    Syntax,
    /// A literal is no integer that a value can be.
    Number,
    /// A text of the command is too long.
    Text,
    /// There are too many items or columns.
    Items,
    /// The relation isn't in the catalog.
    Relation(Txt),
    /// A name of a path is no user.
    User(Txt),
    /// An item's alias stands at an earlier item.
    AliasTwice(Txt),
    /// No item has the alias.
    Alias(Txt),
    /// There is no such column.
    Column { alias: Option<Txt>, col: Txt },
    /// There is a user of that name.
    TakenUser(Txt),
    /// There is a relation or column of that name.
    TakenName(Txt),
    /// The length said of a new relation's key is below 1, or above the number of its columns.
    KeyLength(i64),
    /// Two neighbours of a path are equal.
    Repeat,
    /// A path is too long.
    Deep,
    /// The number of values isn't that of the columns.
    Arity,
    /// A value or a comparison joins two kinds.
    Kind { alias: Option<Txt>, col: Txt },
    /// A column that a `not` item leaves unbound.
    Unsafe { alias: Txt, col: Txt },
    /// The statement, of that sign and tuple, that clashes.
    Clash { sign: Sign, tuple: Tuple },
    /// The base would pass a limit.
    Full(What),
    /// There are too many lines to answer.
    Many,
    /// No change can be taken back.
    NoUndo,
    /// No change that was taken back can be made again.
    NoRedo,
    /// The script ends within a command.
    Unfinished,
}

/// The reply to a refused command: one line with the cause.
pub fn refusal_reply(
    alloc: Global,
    catalog: &Catalog,
    refusal: &Refusal,
) -> Result<List<u8>, AllocError>
    ensures { IfOk result (λ text. text ≡ refusal_reply catalog.now refusal.now) }
{
    let mut out = Vec::with_capacity(alloc, lines::USUAL_LENGTH)?;
    out.extend_from_slice(b"error ")?;
    append_cause(&mut out, catalog, refusal)?;
    out.push(b'\n')?;
    Ok(List::from_vec(out))
}

/// Appends the cause of a refusal.
fn append_cause(out: &mut Vec<u8>, catalog: &Catalog, refusal: &Refusal) -> Result<(), AllocError>
    ensures { OnOk result (out.new.items ≡ out.old.items ++ cause_text catalog.now refusal.now) }
{
    match refusal {
        Refusal::Long => out.extend_from_slice(b"long"),
        Refusal::Syntax => out.extend_from_slice(b"syntax"),
        Refusal::Number => out.extend_from_slice(b"number"),
        Refusal::Text => out.extend_from_slice(b"text"),
        Refusal::Items => out.extend_from_slice(b"items"),
        Refusal::Relation(name) => append_name(out, b"relation ", name),
        Refusal::User(name) => append_user(out, b"user ", name),
        Refusal::AliasTwice(alias) => append_name(out, b"alias twice ", alias),
        Refusal::Alias(alias) => append_name(out, b"alias ", alias),
        Refusal::Column { alias, col } => append_column(out, b"column ", alias, col),
        Refusal::TakenUser(name) => append_user(out, b"taken ", name),
        Refusal::TakenName(name) => append_name(out, b"taken ", name),
        Refusal::KeyLength(length) => append_key(out, *length),
        Refusal::Repeat => out.extend_from_slice(b"repeat"),
        Refusal::Deep => out.extend_from_slice(b"deep"),
        Refusal::Arity => out.extend_from_slice(b"arity"),
        Refusal::Kind { alias, col } => append_column(out, b"kind ", alias, col),
        Refusal::Unsafe { alias, col } => append_unsafe(out, alias, col),
        Refusal::Clash { sign, tuple } => append_clash(out, catalog, *sign, tuple),
        Refusal::Full(what) => append_full(out, *what),
        Refusal::Many => out.extend_from_slice(b"many"),
        Refusal::NoUndo => out.extend_from_slice(b"no undo"),
        Refusal::NoRedo => out.extend_from_slice(b"no redo"),
        Refusal::Unfinished => out.extend_from_slice(b"unfinished"),
    }
}

/// Appends a word and a name as written.
fn append_name(out: &mut Vec<u8>, word: &[u8], name: &Txt) -> Result<(), AllocError>
    ensures { OnOk result (out.new.items ≡ out.old.items ++ (word.now ++ name.now)) }
{
    out.extend_from_slice(word)?;
    out.extend_from_slice(name.as_bytes())
}

/// Appends a word and a user's name, which stands in quotes.
fn append_user(out: &mut Vec<u8>, word: &[u8], name: &Txt) -> Result<(), AllocError>
    ensures { OnOk result (out.new.items ≡ out.old.items ++ (word.now ++ quoted name.now)) }
{
    out.extend_from_slice(word)?;
    append_quoted(out, name.as_bytes())
}

/// Appends the length that was said of a key.
fn append_key(out: &mut Vec<u8>, length: i64) -> Result<(), AllocError>
    ensures { OnOk result (out.new.items ≡ out.old.items ++ (codes "key " ++ int_text length)) }
{
    out.extend_from_slice(b"key ")?;
    append_int(out, length)
}

/// Appends a word and a column, behind its alias where it has one.
fn append_column(
    out: &mut Vec<u8>,
    word: &[u8],
    alias: &Option<Txt>,
    col: &Txt,
) -> Result<(), AllocError>
    ensures { OnOk result
        (out.new.items ≡ out.old.items ++ (word.now ++ named_column alias.now col.now)) }
{
    out.extend_from_slice(word)?;
    match alias {
        Some(alias) => append_dotted(out, alias.as_bytes(), col.as_bytes()),
        None => out.extend_from_slice(col.as_bytes()),
    }
}

/// Appends the column that a query leaves unbound.
fn append_unsafe(out: &mut Vec<u8>, alias: &Txt, col: &Txt) -> Result<(), AllocError>
    ensures { OnOk result
        (out.new.items ≡ out.old.items ++ (codes "unsafe " ++ dotted alias.now col.now)) }
{
    out.extend_from_slice(b"unsafe ")?;
    append_dotted(out, alias.as_bytes(), col.as_bytes())
}

/// Appends the statement that clashes.
fn append_clash(
    out: &mut Vec<u8>,
    catalog: &Catalog,
    sign: Sign,
    tuple: &Tuple,
) -> Result<(), AllocError>
    ensures { OnOk result
        (out.new.items
        ≡ out.old.items ++ (codes "clash " ++ signed_text catalog.now sign tuple.now)) }
{
    out.extend_from_slice(b"clash ")?;
    lines::append_signed(out, catalog, sign, tuple)
}

/// Appends what the base is full of.
fn append_full(out: &mut Vec<u8>, what: What) -> Result<(), AllocError>
    ensures { OnOk result (out.new.items ≡ out.old.items ++ (codes "full " ++ what_text what)) }
{
    out.extend_from_slice(b"full ")?;
    match what {
        What::Users => out.extend_from_slice(b"users"),
        What::Relations => out.extend_from_slice(b"relations"),
        What::Worlds => out.extend_from_slice(b"worlds"),
        What::Tuples => out.extend_from_slice(b"tuples"),
        What::Statements => out.extend_from_slice(b"statements"),
    }
}
