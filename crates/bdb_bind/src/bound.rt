// What commands are bound to, and why a command is refused.
use bdb_base::{Cond, List, Path, Query, RelDef, SetCol, Sign, Stmt, Txt};
use thiserror::Error;

/// A command over a catalog: users by uid, relations and columns by place.
#[derive(Drop)]
pub enum Bound {
    /// A user of this name joins.
    CreateUser {
        name: Txt,
    },
    /// The user of this number leaves, with all statements whose path names him.
    DropUser {
        uid: u32,
    },
    /// A relation is made.
    CreateRelation {
        def: RelDef,
    },
    /// A statement is added.
    Insert {
        stmt: Stmt,
    },
    /// The statements of a path, sign and relation that meet all tests are taken away.
    Delete {
        path: Path,
        sign: Sign,
        rel: u32,
        conds: List<Cond>,
    },
    /// The statements of a path, sign and relation that meet all tests get new values.
    Update {
        path: Path,
        sign: Sign,
        rel: u32,
        sets: List<SetCol>,
        conds: List<Cond>,
    },
    /// A query is answered.
    Select {
        query: Query,
    },
    /// The plan of a query is shown.
    Explain {
        query: Query,
    },
    /// The world of a path is shown.
    ShowWorld {
        path: Path,
    },
    /// It is shown why the path believes the tuple with the sign, or why not.
    Why {
        stmt: Stmt,
    },
    /// The stored structure is shown.
    ShowTables,
    /// The last change is taken back.
    Undo,
    /// The change that was taken back last is made again.
    Redo,
}

/// Why a command is refused over a catalog.
#[derive(Debug, Drop, Error)]
pub enum BindError {
    /// A text has more bytes than `LONGEST_TEXT`.
    #[error("a text is too long")]
    Text,
    /// A new relation has too many columns, or a query too many items or select columns.
    #[error("there are too many items or columns")]
    Items,
    /// The catalog has no relation of this name.
    #[error("no relation has this name")]
    Relation(Txt),
    /// No live user has this name.
    #[error("no user has this name")]
    User(Txt),
    /// This alias stands at an earlier item.
    #[error("an alias stands twice")]
    AliasTwice(Txt),
    /// No item has this alias.
    #[error("no item has this alias")]
    Alias(Txt),
    /// The relation has no such column, or a column after BELIEF isn't the number of a user.
    #[error("there is no such column")]
    Column { alias: Option<Txt>, col: Txt },
    /// A live user has this name.
    #[error("a user has this name")]
    TakenUser(Txt),
    /// A relation has this name, or it is `Users`, or a column of this name stands earlier.
    #[error("this name is taken")]
    TakenName(Txt),
    /// The length said of a new relation's key is below 1, or above the number of its columns.
    #[error("a key has no column, or more columns than there are")]
    KeyLength(i64),
    /// Two neighbours of a path are one user.
    #[error("a path names one user twice in a row")]
    Repeat,
    /// A path has too many users.
    #[error("a path is too long")]
    Deep,
    /// The number of values is not the number of columns.
    #[error("the number of values is not the number of columns")]
    Arity,
    /// A value and a column, or two columns, are of different kinds.
    #[error("two kinds are joined")]
    Kind { alias: Option<Txt>, col: Txt },
    /// Nothing binds this column of a negated item.
    #[error("nothing binds a column of a negated item")]
    Unsafe { alias: Txt, col: Txt },
    /// There is no memory.
    #[error("there is no memory")]
    Memory,
}
