//! The limits of the language.
ghost use Rattle.std.specs.Prelude.{◌≡◌};
ghost use Rattle.bdb_base.specs.Limits.{
  most_users,
  most_relations,
  most_columns,
  longest_text,
  longest_word,
  deepest_statement,
  deepest_query,
  most_items,
  most_select_columns,
  most_worlds,
  most_tuples,
  most_statements,
  longest_command,
  longest_script,
  most_lines,
  most_generated,
};

/// Places of users of a base: those of live users, and of those who are gone.
pub const MOST_USERS: usize = 1_024;

/// Relations of a base.
pub const MOST_RELATIONS: usize = 64;

/// Columns of a relation.
pub const MOST_COLUMNS: usize = 16;

/// Bytes of a name or a text.
pub const LONGEST_TEXT: usize = 255;

/// Bytes of a word of the language.
pub const LONGEST_WORD: usize = 255;

/// Users of a statement's path.
pub const DEEPEST_STATEMENT: usize = 64;

/// Users of a path in a query, and of one whose world is shown.
pub const DEEPEST_QUERY: usize = 1_024;

/// Items of a query.
pub const MOST_ITEMS: usize = 8;

/// Columns that a query selects.
pub const MOST_SELECT_COLUMNS: usize = 32;

/// Worlds of a base.
pub const MOST_WORLDS: usize = 4_000;

/// Different tuples of a base's statements.
pub const MOST_TUPLES: usize = 4_000;

/// Statements of a base.
pub const MOST_STATEMENTS: usize = 20_000;

/// Bytes of a command.
pub const LONGEST_COMMAND: usize = 65_536;

/// Bytes of a script: 2 to the 26th.
pub const LONGEST_SCRIPT: usize = 67_108_864;

/// Rows of an answer, and lines of the tables that are shown.
pub const MOST_LINES: usize = 100_000;

/// Commands that are generated at once.
pub const MOST_GENERATED: usize = 10_000;

/// The constants are the numbers that the definitions name.
pub fn limits_agree()
    ensures users { MOST_USERS ≡ most_users }
    ensures relations { MOST_RELATIONS ≡ most_relations }
    ensures columns { MOST_COLUMNS ≡ most_columns }
    ensures text { LONGEST_TEXT ≡ longest_text }
    ensures word { LONGEST_WORD ≡ longest_word }
    ensures statement { DEEPEST_STATEMENT ≡ deepest_statement }
    ensures query { DEEPEST_QUERY ≡ deepest_query }
    ensures items { MOST_ITEMS ≡ most_items }
    ensures select_columns { MOST_SELECT_COLUMNS ≡ most_select_columns }
    ensures worlds { MOST_WORLDS ≡ most_worlds }
    ensures tuples { MOST_TUPLES ≡ most_tuples }
    ensures statements { MOST_STATEMENTS ≡ most_statements }
    ensures command { LONGEST_COMMAND ≡ longest_command }
    ensures script { LONGEST_SCRIPT ≡ longest_script }
    ensures lines { MOST_LINES ≡ most_lines }
    ensures generated { MOST_GENERATED ≡ most_generated }
{}
