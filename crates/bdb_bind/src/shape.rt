// The checks of a command's sizes.
ghost use Rattle.std.specs.Prelude.{◌≡◌};
ghost use Rattle.bdb_bind.specs.Firsts.{Checks};
ghost use Rattle.bdb_bind.specs.Lines.{text_line, too_many_columns, is_key_length, key_line, begins_with, has_repeat, path_repeats, path_too_deep, change_arity};

use crate::bound::BindError;
use crate::parts::{depth_limit, has_long_text, new_columns, new_key, path_names, tuple_values};
use bdb_base::limits::MOST_COLUMNS;
use bdb_base::{ColDef, Txt, is_same_text};
use bdb_syntax::Command;

/// Refuses a text that is too long.
#[tactic(auto, unfolding(crate::specs::Lines::text_line))]
pub fn check_texts(command: &Command) -> Result<(), BindError>
    ensures { Checks result (text_line command.now) }
{
    if has_long_text(command) {
        return Err(BindError::Text);
    }
    Ok(())
}

/// Refuses a relation of too many columns.
pub fn check_items(command: &Command) -> Result<(), BindError>
    ensures { Checks result (too_many_columns command.now) }
{
    if new_columns(command).len() > MOST_COLUMNS {
        return Err(BindError::Items);
    }
    Ok(())
}

/// Refuses a key of no column, or of more columns than the new relation has.
#[tactic(auto, unfolding(crate::specs::Lines::key_line))]
pub fn check_key(command: &Command) -> Result<(), BindError>
    ensures { Checks result (key_line command.now) }
{
    match new_key(command) {
        Some(length) => {
            if !is_key_length(new_columns(command).len(), length) {
                return Err(BindError::KeyLength(length));
            }
            Ok(())
        }
        None => Ok(()),
    }
}

/// Whether a key of this length has a column, and no more than there are.
fn is_key_length(columns: usize, length: i64) -> bool
    ensures { result ≡ is_key_length columns length }
{
    length > 0 && length.unsigned_abs() <= columns as u64
}

/// Refuses a path with two equal neighbours.
pub fn check_repeat(command: &Command) -> Result<(), BindError>
    ensures { Checks result (path_repeats command.now) }
{
    if has_repeat(path_names(command)) {
        return Err(BindError::Repeat);
    }
    Ok(())
}

/// Whether two neighbours are equal.
fn has_repeat(names: &[Txt]) -> bool
    ensures { result ≡ has_repeat names.now }
{
    let mut rest = names;
    while let [first, others @ ..] = rest {
        if begins_with(first, others) {
            return true;
        }
        rest = others;
    }
    false
}

/// Whether a list begins with this name.
fn begins_with(name: &Txt, names: &[Txt]) -> bool
    ensures { result ≡ begins_with name.now names.now }
{
    match names {
        [] => false,
        [first, ..] => is_same_text(name, first),
    }
}

/// Refuses a path that is too long.
pub fn check_depth(command: &Command) -> Result<(), BindError>
    ensures { Checks result (path_too_deep command.now) }
{
    if path_names(command).len() > depth_limit(command) {
        return Err(BindError::Deep);
    }
    Ok(())
}

/// Refuses a tuple with another number of values than there are columns.
pub fn check_arity(cols: &[ColDef], command: &Command) -> Result<(), BindError>
    ensures { Checks result (change_arity cols.now command.now) }
{
    match tuple_values(command) {
        Some(vals) => {
            if vals.len() != cols.len() {
                return Err(BindError::Arity);
            }
            Ok(())
        }
        None => Ok(()),
    }
}
