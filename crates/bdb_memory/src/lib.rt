//! The keepers in memory: rows in sorted blocks, with a transaction that can be undone.
#![tactic(auto)]

mod behind;
mod beside;
mod block;
mod blocks;
mod bytes;
mod census;
mod changes;
mod counts;
mod cursors;
mod entry;
mod finding;
mod head;
mod ledger;
mod many;
mod marked;
mod mem;
mod opening;
mod place;
mod quiet;
mod reading;
mod row;
mod rows;
mod runs;
mod shelf;
mod shelves;
mod store;
mod tail;
mod tally;
mod under;
mod words;

pub use ledger::Ledger;
pub use mem::MemKeeper;
pub use quiet::QuietKeeper;
pub use store::Store;
