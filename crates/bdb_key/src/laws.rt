// Keys and rows have one spelling, and keys come in the order of their parts.
ghost use Rattle.bdb_key.specs.Laws.{KeysHaveOneSpelling, KeysKeepOrder, RowsHaveOneSpelling};

/// No two keys of one shape are written alike.
pub fn keys_have_one_spelling()
    ensures { KeysHaveOneSpelling }
{}

/// No two rows of one table are written alike. So a row of the table that is written and read back is the same row.
pub fn rows_have_one_spelling()
    ensures { RowsHaveOneSpelling }
{}

/// The bytes of keys of one shape come in the order of their parts.
pub fn keys_keep_order()
    ensures { KeysKeepOrder }
{}
