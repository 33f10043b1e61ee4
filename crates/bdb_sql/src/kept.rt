// The one table of a file: the texts that make, read and write it, and how large its rows may be.

/// Makes the table, where it isn't there.
pub const CREATE: &str =
    "create table if not exists kept(tab integer not null, k blob not null, v blob not null, primary key (tab, k)) strict";

/// All rows in their order.
pub const SELECT: &str = "select tab, k, v from kept order by tab, k";

/// Puts a row, in place of the row that stood there.
pub const PUT: &str =
    "insert into kept(tab, k, v) values (?1, ?2, ?3) on conflict (tab, k) do update set v = excluded.v";

/// Takes a row away.
pub const REMOVE: &str = "delete from kept where tab = ?1 and k = ?2";

/// A key or a content has no more bytes than this. The longest that a command can make are far below it.
pub const LONGEST: usize = 1 << 20;
