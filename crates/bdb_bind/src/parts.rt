// What a command says of users, relations, columns and texts.
ghost use Rattle.std.specs.Prelude.{◌≡◌};
ghost use Rattle.std.specs.Option.{option_copied};
ghost use Rattle.std.specs.List.{list_any};
ghost use Rattle.bdb_bind.specs.Parts.{path_names, depth_limit, relation_name, tuple_values, new_columns, new_key, value_texts, side_texts, is_long, some_who_text, some_query_text, some_signed_text, some_text};

use bdb_base::limits::{DEEPEST_QUERY, DEEPEST_STATEMENT, LONGEST_TEXT};
use bdb_base::{ColDef, List, Txt, Value};
use bdb_syntax::{Command, RawCond, RawItem, RawQuery, RawSet, RawSide, RawWho};
use std::slice;

/// The names of a command's one path; a user who leaves is a path of his own.
pub fn path_names(command: &Command) -> &[Txt]
    ensures { result.now ≡ path_names command.now }
{
    match command {
        Command::DropUser { name } => slice::from_ref(name),
        Command::Insert { users, .. } => users.as_slice(),
        Command::Delete { users, .. } => users.as_slice(),
        Command::Update { users, .. } => users.as_slice(),
        Command::ShowWorld { users } => users.as_slice(),
        Command::Why { users, .. } => users.as_slice(),
        _ => &[],
    }
}

/// The longest path that a command with one path may have.
pub fn depth_limit(command: &Command) -> usize
    ensures { result ≡ depth_limit command.now }
{
    match command {
        Command::ShowWorld { .. } => DEEPEST_QUERY,
        Command::Why { .. } => DEEPEST_QUERY,
        _ => DEEPEST_STATEMENT,
    }
}

/// The relation that a command names, outside queries.
pub fn relation_name(command: &Command) -> Option<&Txt>
    ensures { option_copied result ≡ relation_name command.now }
{
    match command {
        Command::Insert { rel, .. } => Some(rel),
        Command::Delete { rel, .. } => Some(rel),
        Command::Update { rel, .. } => Some(rel),
        Command::Why { rel, .. } => Some(rel),
        _ => None,
    }
}

/// The values of the tuple that a command names.
pub fn tuple_values(command: &Command) -> Option<&List<Value>>
    ensures { option_copied result ≡ tuple_values command.now }
{
    match command {
        Command::Insert { vals, .. } => Some(vals),
        Command::Why { vals, .. } => Some(vals),
        _ => None,
    }
}

/// The columns of a new relation.
pub fn new_columns(command: &Command) -> &[ColDef]
    ensures { result.now ≡ new_columns command.now }
{
    match command {
        Command::CreateRelation { cols, .. } => cols.as_slice(),
        _ => &[],
    }
}

/// The length that a new relation's key is said to have.
pub fn new_key(command: &Command) -> Option<i64>
    ensures { result ≡ new_key command.now }
{
    match command {
        Command::CreateRelation { key, .. } => *key,
        _ => None,
    }
}

/// Whether a text of a command is too long.
pub fn has_long_text(command: &Command) -> bool
    ensures { result ≡ some_text is_long command.now }
{
    match command {
        Command::CreateUser { name } => is_long(name),
        Command::DropUser { name } => is_long(name),
        Command::Insert { users, vals, .. } => has_long_signed(users, vals),
        Command::Delete { users, conds, .. } => {
            has_long_name(users.as_slice()) || has_long_cond(conds.as_slice())
        }
        Command::Update {
            users,
            sets,
            conds,
            ..
        } => {
            has_long_name(users.as_slice())
                || has_long_set(sets.as_slice())
                || has_long_cond(conds.as_slice())
        }
        Command::ShowWorld { users } => has_long_name(users.as_slice()),
        Command::Why { users, vals, .. } => has_long_signed(users, vals),
        Command::Select { query } => has_long_query(query),
        Command::Explain { query } => has_long_query(query),
        _ => false,
    }
}

/// Whether a text of a path or a tuple is too long.
fn has_long_signed(users: &List<Txt>, vals: &List<Value>) -> bool
    ensures { result ≡ some_signed_text is_long users.now vals.now }
{
    has_long_name(users.as_slice()) || has_long_value(vals.as_slice())
}

/// Whether a text is too long.
fn is_long(text: &Txt) -> bool
    ensures { result ≡ is_long text.now }
{
    text.len() > LONGEST_TEXT
}

/// Whether a value is a text that is too long.
fn is_long_value(value: &Value) -> bool
    ensures { result ≡ list_any is_long (value_texts value.now) }
{
    match value {
        Value::Int(_) => false,
        Value::Text(text) => is_long(text),
    }
}

/// Whether a comparison's right side is a text that is too long.
fn is_long_side(side: &RawSide) -> bool
    ensures { result ≡ list_any is_long (side_texts side.now) }
{
    match side {
        RawSide::Col(_) => false,
        RawSide::Lit(value) => is_long_value(value),
    }
}

fn has_long_name(names: &[Txt]) -> bool
    ensures { result ≡ list_any is_long names.now }
{
    names.iter().any(|name| is_long(name))
}

fn has_long_value(values: &[Value]) -> bool
    ensures { result ≡ list_any (λ v. list_any is_long (value_texts v)) values.now }
{
    values.iter().any(|value| is_long_value(value))
}

fn has_long_set(sets: &[RawSet]) -> bool
    ensures { result ≡ list_any (λ s. list_any is_long (value_texts s.to)) sets.now }
{
    sets.iter().any(|set| is_long_value(&set.to))
}

fn has_long_cond(conds: &[RawCond]) -> bool
    ensures { result ≡ list_any (λ c. list_any is_long (side_texts c.right)) conds.now }
{
    conds.iter().any(|cond| is_long_side(&cond.right))
}

/// Whether a text of a query is too long.
fn has_long_query(query: &RawQuery) -> bool
    ensures { result ≡ some_query_text is_long query.now }
{
    has_long_item(query.items.as_slice()) || has_long_cond(query.conds.as_slice())
}

fn has_long_item(items: &[RawItem]) -> bool
    ensures { result ≡ list_any (λ i. list_any (some_who_text is_long) i.path) items.now }
{
    items.iter().any(|item| has_long_who(item.path.as_slice()))
}

fn has_long_who(path: &[RawWho]) -> bool
    ensures { result ≡ list_any (some_who_text is_long) path.now }
{
    path.iter().any(|who| is_long_who(who))
}

/// Whether a name after BELIEF is too long.
fn is_long_who(who: &RawWho) -> bool
    ensures { result ≡ some_who_text is_long who.now }
{
    match who {
        RawWho::Name(name) => is_long(name),
        RawWho::Col(_) => false,
    }
}
