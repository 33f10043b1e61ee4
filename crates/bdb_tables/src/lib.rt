//! Typed tables over a keeper: the rows of the database by table, each read or written in one call, and when tables
//! store a base with its worlds.
#![tactic(auto)]

mod access;
mod changes;
mod copies;
mod explicit;
mod gaps;
mod keys;
mod laws;
mod lengths;
mod marks;
mod raw;
mod room;
mod spans;
mod tab;
mod tabs;
mod world_tabs;

pub use access::{
    after, drop_in, drop_row, get, get_in, next, next_in, put, put_in, read_tuple, table_error,
};
pub use changes::write_rows;
pub use copies::{clear_rows, copy_rows};
pub use explicit::has_explicit;
pub use gaps::first_gap;
pub use keys::{put_key_vals, put_pair, put_val_key};
pub use laws::{differences_add, differences_are_counted, differences_are_listed};
pub use lengths::stored_key_length;
pub use marks::{MARKS, mark_under, marks_under, numbered_under, write_marks};
pub use raw::{RawError, read_raw, read_raw_in};
pub use room::Room;
pub use spans::{next_under, rows_under};
pub use tab::{Tab, TabError};
pub use tabs::{FORMAT, MetaTab, PlainTab, RelTab, TABLES, UserTab};
pub use world_tabs::{DepthTab, EdgeIx, EdgeTab, SuffixIx, SuffixTab, TupleIx, TupleTab, ValTab};
