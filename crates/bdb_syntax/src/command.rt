// Commands as they are written.

use bdb_base::{Cmp, ColDef, Exact, List, Sign, Txt, Value};
use std::alloc::{AllocError, Global};

/// A column, behind the alias of its item in a query and without one elsewhere.
#[derive(Drop)]
pub struct RawCol {
    pub alias: Option<Txt>,
    pub col: Txt,
}

/// The right side of a comparison.
#[derive(Drop)]
pub enum RawSide {
    /// A column.
    Col(RawCol),
    /// A literal.
    Lit(Value),
}

/// A comparison.
#[derive(Drop)]
pub struct RawCond {
    pub left: RawCol,
    pub cmp: Cmp,
    pub right: RawSide,
}

/// A user of a query's path: a name, or a column of a `Users` item.
#[derive(Drop)]
pub enum RawWho {
    /// The user of this name.
    Name(Txt),
    /// Each user whom the column has in a row of its item.
    Col(RawCol),
}

/// An item of a query. Without an alias in the text its alias is the relation's name.
#[derive(Drop)]
pub struct RawItem {
    pub path: List<RawWho>,
    pub sign: Sign,
    pub rel: Txt,
    pub alias: Txt,
}

/// A column that an update sets.
#[derive(Drop)]
pub struct RawSet {
    pub col: Txt,
    pub to: Value,
}

/// A query.
#[derive(Drop)]
pub struct RawQuery {
    pub take: List<RawCol>,
    pub items: List<RawItem>,
    pub conds: List<RawCond>,
}

/// A command, with names as they are written. The users of a path stand in its order, the outermost first.
#[derive(Drop)]
pub enum Command {
    /// A new user.
    CreateUser {
        name: Txt,
    },
    /// The user of this name leaves.
    DropUser {
        name: Txt,
    },
    /// A new relation. Its key is its first columns, as many as `key` says, and one where it says nothing.
    CreateRelation {
        name: Txt,
        cols: List<ColDef>,
        key: Option<i64>,
    },
    /// A statement of a tuple at the path of the users.
    Insert {
        users: List<Txt>,
        sign: Sign,
        rel: Txt,
        vals: List<Value>,
    },
    /// The statements of the path that meet all conditions are taken away.
    Delete {
        users: List<Txt>,
        sign: Sign,
        rel: Txt,
        conds: List<RawCond>,
    },
    /// The statements of the path that meet all conditions get other values.
    Update {
        users: List<Txt>,
        sign: Sign,
        rel: Txt,
        sets: List<RawSet>,
        conds: List<RawCond>,
    },
    /// The answers of a query.
    Select {
        query: RawQuery,
    },
    /// The plan of a query.
    Explain {
        query: RawQuery,
    },
    /// What is believed at the path of the users.
    ShowWorld {
        users: List<Txt>,
    },
    /// Why a tuple is or isn't believed at the path of the users.
    Why {
        users: List<Txt>,
        sign: Sign,
        rel: Txt,
        vals: List<Value>,
    },
    /// The structure that stands for all worlds.
    ShowTables,
    /// The last change is taken back.
    Undo,
    /// The change that was taken back last is made again.
    Redo,
}

impl Exact for RawCol {
    fn try_clone(&self, alloc: Global) -> Result<Self, AllocError> {
        let alias = match &self.alias {
            Some(alias) => Some(alias.try_clone(alloc)?),
            None => None,
        };
        let col = self.col.try_clone(alloc)?;
        Ok(RawCol { alias, col })
    }
}

impl Exact for RawCond {
    fn try_clone(&self, alloc: Global) -> Result<Self, AllocError> {
        let left = self.left.try_clone(alloc)?;
        let right = self.right.try_clone(alloc)?;
        Ok(RawCond {
            left,
            cmp: self.cmp,
            right,
        })
    }
}

impl Exact for RawItem {
    fn try_clone(&self, alloc: Global) -> Result<Self, AllocError> {
        let path = self.path.try_clone(alloc)?;
        let rel = self.rel.try_clone(alloc)?;
        let alias = self.alias.try_clone(alloc)?;
        Ok(RawItem {
            path,
            sign: self.sign,
            rel,
            alias,
        })
    }
}

impl Exact for RawSet {
    fn try_clone(&self, alloc: Global) -> Result<Self, AllocError> {
        let col = self.col.try_clone(alloc)?;
        let to = self.to.try_clone(alloc)?;
        Ok(RawSet { col, to })
    }
}

impl Exact for RawQuery {
    fn try_clone(&self, alloc: Global) -> Result<Self, AllocError> {
        let take = self.take.try_clone(alloc)?;
        let items = self.items.try_clone(alloc)?;
        let conds = self.conds.try_clone(alloc)?;
        Ok(RawQuery { take, items, conds })
    }
}

impl Exact for RawSide {
    fn try_clone(&self, alloc: Global) -> Result<Self, AllocError> {
        match self {
            RawSide::Col(col) => Ok(RawSide::Col(col.try_clone(alloc)?)),
            RawSide::Lit(value) => Ok(RawSide::Lit(value.try_clone(alloc)?)),
        }
    }
}

impl Exact for RawWho {
    fn try_clone(&self, alloc: Global) -> Result<Self, AllocError> {
        match self {
            RawWho::Name(name) => Ok(RawWho::Name(name.try_clone(alloc)?)),
            RawWho::Col(col) => Ok(RawWho::Col(col.try_clone(alloc)?)),
        }
    }
}

impl Exact for Command {
    fn try_clone(&self, alloc: Global) -> Result<Self, AllocError> {
        match self {
            Command::CreateUser { name } => Ok(Command::CreateUser {
                name: name.try_clone(alloc)?,
            }),
            Command::DropUser { name } => Ok(Command::DropUser {
                name: name.try_clone(alloc)?,
            }),
            Command::CreateRelation { name, cols, key } => Ok(Command::CreateRelation {
                name: name.try_clone(alloc)?,
                cols: cols.try_clone(alloc)?,
                key: *key,
            }),
            Command::Insert {
                users,
                sign,
                rel,
                vals,
            } => Ok(Command::Insert {
                users: users.try_clone(alloc)?,
                sign: *sign,
                rel: rel.try_clone(alloc)?,
                vals: vals.try_clone(alloc)?,
            }),
            Command::Delete {
                users,
                sign,
                rel,
                conds,
            } => Ok(Command::Delete {
                users: users.try_clone(alloc)?,
                sign: *sign,
                rel: rel.try_clone(alloc)?,
                conds: conds.try_clone(alloc)?,
            }),
            Command::Update {
                users,
                sign,
                rel,
                sets,
                conds,
            } => Ok(Command::Update {
                users: users.try_clone(alloc)?,
                sign: *sign,
                rel: rel.try_clone(alloc)?,
                sets: sets.try_clone(alloc)?,
                conds: conds.try_clone(alloc)?,
            }),
            Command::Select { query } => Ok(Command::Select {
                query: query.try_clone(alloc)?,
            }),
            Command::Explain { query } => Ok(Command::Explain {
                query: query.try_clone(alloc)?,
            }),
            Command::ShowWorld { users } => Ok(Command::ShowWorld {
                users: users.try_clone(alloc)?,
            }),
            Command::Why {
                users,
                sign,
                rel,
                vals,
            } => Ok(Command::Why {
                users: users.try_clone(alloc)?,
                sign: *sign,
                rel: rel.try_clone(alloc)?,
                vals: vals.try_clone(alloc)?,
            }),
            Command::ShowTables => Ok(Command::ShowTables),
            Command::Undo => Ok(Command::Undo),
            Command::Redo => Ok(Command::Redo),
        }
    }
}
