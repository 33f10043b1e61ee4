// Bytes back into the rows of tables by number.
ghost use Rattle.std.specs.Prelude.{◌≤◌, IfOk};
ghost use Rattle.std.specs.Result.{IsErrOf};
ghost use Rattle.bdb_key.specs.Reading.{Reads, NoneReads};
ghost use Rattle.bdb_key.specs.Rows.{IsRow, row_bytes};

use crate::part::{KeyError, RowError};
use crate::read::only_num;
use crate::row::TabRow;
use crate::row_read::{mark_of, rel_of, sign_of, tuple_of, user_of};
use std::alloc::Global;

/// The row of a table that these bytes are. `NotARow` comes exactly where they are no row of that table.
pub fn take_row(alloc: Global, tab: u8, bytes: &[u8]) -> Result<TabRow, RowError>
    requires { (1 ≤ tab) × (tab ≤ 12) }
    ensures ok { IfOk result (Reads (IsRow tab) row_bytes bytes.now) }
    ensures none { IsErrOf result RowError.NotARow → NoneReads (IsRow tab) row_bytes bytes.now }
{
    match tab {
        1 => meta_row(bytes),
        2 => user_row(alloc, bytes),
        3 => rel_row(alloc, bytes),
        4 => tuple_row(alloc, bytes),
        5 => tid_row(bytes),
        6 => depth_row(bytes),
        7 | 9 => link_row(bytes),
        8 | 10 => empty_row(bytes),
        11 => mark_row(bytes),
        _ => sign_row(bytes),
    }
}

fn meta_row(bytes: &[u8]) -> Result<TabRow, RowError>
    ensures ok { IfOk result (Reads (IsRow 1) row_bytes bytes.now) }
    ensures none { IsErrOf result RowError.NotARow → NoneReads (IsRow 1) row_bytes bytes.now }
{
    match only_num(bytes) {
        Some(n) => Ok(TabRow::Meta(n)),
        None => Err(RowError::NotARow),
    }
}

fn tid_row(bytes: &[u8]) -> Result<TabRow, RowError>
    ensures ok { IfOk result (Reads (IsRow 5) row_bytes bytes.now) }
    ensures none { IsErrOf result RowError.NotARow → NoneReads (IsRow 5) row_bytes bytes.now }
{
    match only_num(bytes) {
        Some(n) => Ok(TabRow::Tid(n)),
        None => Err(RowError::NotARow),
    }
}

fn depth_row(bytes: &[u8]) -> Result<TabRow, RowError>
    ensures ok { IfOk result (Reads (IsRow 6) row_bytes bytes.now) }
    ensures none { IsErrOf result RowError.NotARow → NoneReads (IsRow 6) row_bytes bytes.now }
{
    match only_num(bytes) {
        Some(n) => Ok(TabRow::Depth(n)),
        None => Err(RowError::NotARow),
    }
}

// The row of table 7 or 9: a link or an edge.
fn link_row(bytes: &[u8]) -> Result<TabRow, RowError>
    ensures link { IfOk result (Reads (IsRow 7) row_bytes bytes.now) }
    ensures edge { IfOk result (Reads (IsRow 9) row_bytes bytes.now) }
    ensures no_link { IsErrOf result RowError.NotARow → NoneReads (IsRow 7) row_bytes bytes.now }
    ensures no_edge { IsErrOf result RowError.NotARow → NoneReads (IsRow 9) row_bytes bytes.now }
{
    match only_num(bytes) {
        Some(n) => Ok(TabRow::Link(n)),
        None => Err(RowError::NotARow),
    }
}

fn user_row(alloc: Global, bytes: &[u8]) -> Result<TabRow, RowError>
    ensures ok { IfOk result (Reads (IsRow 2) row_bytes bytes.now) }
    ensures none { IsErrOf result RowError.NotARow → NoneReads (IsRow 2) row_bytes bytes.now }
{
    match user_of(alloc, bytes) {
        Ok(slot) => Ok(TabRow::User(slot)),
        Err(KeyError::NotAKey) => Err(RowError::NotARow),
        Err(KeyError::Memory) => Err(RowError::Memory),
    }
}

fn rel_row(alloc: Global, bytes: &[u8]) -> Result<TabRow, RowError>
    ensures ok { IfOk result (Reads (IsRow 3) row_bytes bytes.now) }
    ensures none { IsErrOf result RowError.NotARow → NoneReads (IsRow 3) row_bytes bytes.now }
{
    match rel_of(alloc, bytes) {
        Ok(def) => Ok(TabRow::Rel(def)),
        Err(KeyError::NotAKey) => Err(RowError::NotARow),
        Err(KeyError::Memory) => Err(RowError::Memory),
    }
}

fn tuple_row(alloc: Global, bytes: &[u8]) -> Result<TabRow, RowError>
    ensures ok { IfOk result (Reads (IsRow 4) row_bytes bytes.now) }
    ensures none { IsErrOf result RowError.NotARow → NoneReads (IsRow 4) row_bytes bytes.now }
{
    match tuple_of(alloc, bytes) {
        Ok(tuple) => Ok(TabRow::Tuple(tuple)),
        Err(KeyError::NotAKey) => Err(RowError::NotARow),
        Err(KeyError::Memory) => Err(RowError::Memory),
    }
}

// The row of table 8 or 10: a link or an edge turned round.
fn empty_row(bytes: &[u8]) -> Result<TabRow, RowError>
    ensures linked { IfOk result (Reads (IsRow 8) row_bytes bytes.now) }
    ensures led { IfOk result (Reads (IsRow 10) row_bytes bytes.now) }
    ensures no_linked { IsErrOf result RowError.NotARow → NoneReads (IsRow 8) row_bytes bytes.now }
    ensures no_led { IsErrOf result RowError.NotARow → NoneReads (IsRow 10) row_bytes bytes.now }
{
    if !bytes.is_empty() {
        return Err(RowError::NotARow);
    }
    Ok(TabRow::Empty)
}

fn mark_row(bytes: &[u8]) -> Result<TabRow, RowError>
    ensures ok { IfOk result (Reads (IsRow 11) row_bytes bytes.now) }
    ensures none { IsErrOf result RowError.NotARow → NoneReads (IsRow 11) row_bytes bytes.now }
{
    match mark_of(bytes) {
        Some((sign, explicit)) => Ok(TabRow::Val { sign, explicit }),
        None => Err(RowError::NotARow),
    }
}

fn sign_row(bytes: &[u8]) -> Result<TabRow, RowError>
    ensures ok { IfOk result (Reads (IsRow 12) row_bytes bytes.now) }
    ensures none { IsErrOf result RowError.NotARow → NoneReads (IsRow 12) row_bytes bytes.now }
{
    match sign_of(bytes) {
        Some(sign) => Ok(TabRow::Plain(sign)),
        None => Err(RowError::NotARow),
    }
}
