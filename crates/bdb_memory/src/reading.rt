// Reading the key and the row of an entry.
ghost use Rattle.std.specs.Prelude.{◌≡◌, ◌∷◌, [], Some, None, IfOk, is_some, true, false, List, ℕ, if◌then◌else◌};
ghost use Rattle.std.specs.Option.{option_copied};

use crate::entry::Entry;
use std::alloc::AllocError;

/// Copies a row, if there is one.
#[inline(always)]
pub fn copy_row(from: Option<&[u8]>, row: &mut Vec<u8>) -> Result<bool, AllocError>
    ensures found { IfOk result
        (λ found. option_copied from.entry ≡ (if found then Some row.new.items else None)) }
    ensures empty { IfOk result (λ found. found ≡ false → row.new.items ≡ []) }
{
    row.clear();
    match from {
        Some(bytes) => {
            row.extend_from_slice(bytes)?;
            Ok(true)
        }
        None => Ok(false),
    }
}

/// Gives the key of an entry and its row, where it has one and its place is in a table.
#[inline(always)]
pub fn give(
    tab: u8,
    entry: &Entry,
    key: &mut Vec<u8>,
    row: &mut Vec<u8>,
) -> Result<bool, AllocError>
    ensures place { IfOk result
        (λ found. found ≡ true → entry.now ≡ (tab ∷ key.new.items, Some row.new.items)) }
    ensures other { IfOk result (λ found. found ≡ false → is_some entry.now.1 ≡ true → (q : List ℕ)
        → entry.now.0 ≡ tab ∷ q → ⊥) }
    ensures empty { IfOk result (λ found. found ≡ false → (key.new.items ≡ [])
        × (row.new.items ≡ [])) }
{
    key.clear();
    row.clear();
    match entry.row() {
        Some(bytes) => {
            if entry.write_key(key)? != tab {
                key.clear();
                return Ok(false);
            }
            row.extend_from_slice(bytes)?;
            Ok(true)
        }
        None => Ok(false),
    }
}
