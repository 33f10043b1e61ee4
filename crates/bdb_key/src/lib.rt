//! Keys and rows of the tables as bytes. No two keys of one shape are written alike, nor two rows of one table, and keys
//! of one shape come in the order of their parts.
#![tactic(auto)]

mod laws;
mod part;
mod read;
mod row;
mod row_read;
mod row_take;
mod row_write;
mod take;
mod write;

pub use laws::{keys_have_one_spelling, keys_keep_order, rows_have_one_spelling};
pub use part::{KeyError, Part, RowError, Slot};
pub use read::{int_of, num_of, only_num, path_of, text_of, vals_of, value_of, values_of};
pub use row::TabRow;
pub use row_read::{key_length_of, mark_of, only_text, rel_of, sign_of, tuple_of, user_of};
pub use row_take::take_row;
pub use row_write::{put_mark, put_rel, put_row, put_sign, put_tuple, put_user};
pub use take::take_key;
pub use write::{put_key, put_num, put_path, put_text, put_vals, put_value, put_values};
