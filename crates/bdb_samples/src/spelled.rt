// What lines of tests spell: words, bytes by hexadecimal digits, and changes of rows.
use bdb_base::{List, Txt};
use std::alloc::Global;
use std::test::Fail;

/// The words of a line.
pub fn words_of(alloc: Global, line: &str) -> Result<List<Txt>, Fail> {
    let mut words = List::new(alloc);
    for word in line.split_whitespace() {
        words.push(Txt::try_new(alloc, word)?)?;
    }
    Ok(words)
}

/// The bytes of hexadecimal digits; a dot has none.
pub fn bytes_of(alloc: Global, digits: &str) -> Result<Vec<u8>, Fail> {
    if digits == "." {
        return Ok(Vec::new(alloc));
    }
    Ok(hex::decode(alloc, digits)?)
}

/// A row that a table gets, or loses.
#[derive(Drop)]
pub struct RowChange {
    pub tab: u8,
    pub key: Vec<u8>,
    pub row: Option<Vec<u8>>,
}

/// The changes that a line tells between semicolons: of each a table, a key and a row, or a dash where the row is lost.
pub fn changes_of(alloc: Global, line: &str) -> Result<Vec<RowChange>, Fail> {
    let mut changes = Vec::new(alloc);
    for change in line.split(';') {
        let mut words = change.split_whitespace();
        let (Some(tab), Some(key), Some(row)) = (words.next(), words.next(), words.next()) else {
            return Ok(changes);
        };
        changes.push(change_of(alloc, tab, key, row)?)?;
    }
    Ok(changes)
}

/// The change of these words.
fn change_of(alloc: Global, tab: &str, key: &str, row: &str) -> Result<RowChange, Fail> {
    let tab = bytes_of(alloc, tab)?;
    Ok(RowChange {
        tab: tab.first().copied().unwrap_or(0),
        key: bytes_of(alloc, key)?,
        row: if row == "-" {
            None
        } else {
            Some(bytes_of(alloc, row)?)
        },
    })
}
