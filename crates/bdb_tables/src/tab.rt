// The trait of typed tables.
ghost use Rattle.std.specs.Prelude.{◌≡◌, ℕ, List, ◌++◌, ◌≤◌, IfOk, OnOk, OnErr};
ghost use Rattle.std.specs.Result.{IsErrOf};
ghost use Rattle.bdb_key.specs.Reading.{Reads, NoneReads};
ghost use Rattle.bdb_tables.specs.Codec.{Codec, IsEntryOf, KeepsOrder, HasOneKey, HasOneRow};
ghost use Rattle.bdb_tables.specs.Grammar.{IsEntry};

use bdb_key::{KeyError, RowError};
use std::alloc::{AllocError, Global};
use thiserror::Error;

/// Why a table was not read or written. After either no transaction runs, and the rows are those last committed.
#[derive(Clone, Copy, Debug, PartialEq, Eq, Drop, Error)]
pub enum TabError {
    /// The store failed. The keeper's count of faults rose.
    #[error("the store failed")]
    Fault,
    /// There is no memory.
    #[error("out of memory")]
    Memory,
}

/// A table with keys and rows of types of its own. Its four calls serve the calls over keepers alone.
pub trait Tab {
    type Key: Drop;

    type Row: Drop;

    /// The table's number.
    const NUMBER: u8;

    ghost NUMBER: { ℕ };

    // the table's number, and the bytes of its keys and rows
    ghost codec: { Codec Self.Key Self.Row };

    /// Appends the bytes of a key. After a refusal the bytes are unchanged.
    fn key_bytes(key: &Self::Key, out: &mut Vec<u8>) -> Result<(), AllocError>
        requires { codec.MayBeKey key.now }
        ensures ok { OnOk result (out.new.items ≡ out.old.items ++ codec.key_bytes key.now) }
        ensures fits { OnOk result (codec.IsKey key.now) }
        ensures err { OnErr result (out.new.items ≡ out.old.items) };

    /// The key that these bytes are. `NotAKey` comes exactly where they are no key of the table.
    fn key_back(alloc: Global, bytes: &[u8]) -> Result<Self::Key, KeyError>
        ensures ok { IfOk result (Reads codec.IsKey codec.key_bytes bytes.now) }
        ensures none { IsErrOf result KeyError.NotAKey → NoneReads codec.IsKey codec.key_bytes
            bytes.now };

    /// Appends the bytes of a row. After a refusal the bytes are unchanged.
    fn row_bytes(row: &Self::Row, out: &mut Vec<u8>) -> Result<(), AllocError>
        requires { codec.MayBeRow row.now }
        ensures ok { OnOk result (out.new.items ≡ out.old.items ++ codec.row_bytes row.now) }
        ensures fits { OnOk result (codec.IsRow row.now) }
        ensures err { OnErr result (out.new.items ≡ out.old.items) };

    /// The row that these bytes are. `NotARow` comes exactly where they are no row of the table.
    fn row_back(alloc: Global, bytes: &[u8]) -> Result<Self::Row, RowError>
        ensures ok { IfOk result (Reads codec.IsRow codec.row_bytes bytes.now) }
        ensures none { IsErrOf result RowError.NotARow → NoneReads codec.IsRow codec.row_bytes
            bytes.now };

    // the number is one of the keeper's tables
    ghost number_ok: { (1 ≤ codec.number) × (codec.number ≤ 15) × (codec.number ≡ NUMBER) };

    // keys come in the order of their bytes
    ghost in_order: { KeepsOrder codec };

    ghost one_key: { HasOneKey codec };

    ghost one_row: { HasOneRow codec };

    // what the grammar of tables says of the table's number is that its keys and rows are those of the codec
    ghost entry: { (k r : List ℕ) → IsEntry codec.number k r → IsEntryOf codec k r };

    ghost entry_back: { (k r : List ℕ) → IsEntryOf codec k r → IsEntry codec.number k r };
}
