// The plain types of the database and their exact copies.

use crate::list::{Exact, List};
use crate::path::Path;
use crate::text::Txt;
use crate::tuple::Tuple;
use std::alloc::{AllocError, Global};

/// A value of a column.
#[derive(Debug, Drop)]
pub enum Value {
    Int(i64),
    Text(Txt),
}

/// The kind of a column's values.
#[derive(Clone, Copy, Debug, PartialEq, Eq, Drop)]
pub enum Kind {
    Int,
    Text,
}

/// Whether a statement affirms its tuple or denies it.
#[derive(Clone, Copy, Debug, PartialEq, Eq, Drop)]
pub enum Sign {
    Plus,
    Minus,
}

/// An explicit statement: who states it, with which sign, of which tuple.
#[derive(Debug, Drop)]
pub struct Stmt {
    pub path: Path,
    pub sign: Sign,
    pub tuple: Tuple,
}

/// A column of a relation.
#[derive(Drop)]
pub struct ColDef {
    pub name: Txt,
    pub kind: Kind,
}

/// A relation. Its key is its first `key` columns: in a valid base at least one, at most all of them.
#[derive(Drop)]
pub struct RelDef {
    pub name: Txt,
    pub cols: List<ColDef>,
    pub key: u32,
}

/// A place of the list of users: a live user, by name, or one who is gone.
#[derive(Drop)]
pub enum UserSlot {
    Live(Txt),
    Gone,
}

/// The relations, numbered from 0, and the places of the users, numbered from 1, in order of creation. A user who is gone
/// keeps his place, so that his number is not given again.
#[derive(Drop)]
pub struct Catalog {
    pub rels: List<RelDef>,
    pub users: List<UserSlot>,
}

/// What a base can be full of.
#[derive(Clone, Copy, Debug, PartialEq, Eq, Drop)]
pub enum What {
    Users,
    Relations,
    Worlds,
    Tuples,
    Statements,
}

/// A user of a query's path: a user's number, or the user chosen for the `Users` item at a place.
#[derive(Clone, Copy, Debug, PartialEq, Eq, Drop)]
pub enum Who {
    User(u32),
    Of(u32),
}

/// A column of a query's item, both by place. A `Users` item has the columns uid, 0, and name, 1.
#[derive(Clone, Copy, Debug, PartialEq, Eq, Drop)]
pub struct Ref {
    pub item: u32,
    pub col: u32,
}

/// The right side of a comparison.
#[derive(Drop)]
pub enum Operand {
    Col(Ref),
    Lit(Value),
}

/// A comparison's sign.
#[derive(Clone, Copy, Debug, PartialEq, Eq, Drop)]
pub enum Cmp {
    Eq,
    Ne,
    Lt,
    Le,
    Gt,
    Ge,
}

/// A comparison.
#[derive(Drop)]
pub struct Cond {
    pub left: Ref,
    pub cmp: Cmp,
    pub right: Operand,
}

/// An item of a query.
#[derive(Drop)]
pub enum Item {
    Users {
        alias: Txt,
    },
    Rel {
        alias: Txt,
        rel: u32,
        sign: Sign,
        path: List<Who>,
    },
}

/// A query over beliefs.
#[derive(Drop)]
pub struct Query {
    pub take: List<Ref>,
    pub items: List<Item>,
    pub conds: List<Cond>,
}

/// A column that an update sets, and its new value.
#[derive(Drop)]
pub struct SetCol {
    pub col: u32,
    pub to: Value,
}

/// A signed tuple of a world. It is explicit where it is a statement at that very path.
#[derive(Drop)]
pub struct Held {
    pub tuple: Tuple,
    pub sign: Sign,
    pub explicit: bool,
}

/// The signed tuples of a path, sorted by tuple.
#[derive(Drop)]
pub struct World {
    pub held: List<Held>,
}

impl Exact for Value {
    fn try_clone(&self, alloc: Global) -> Result<Self, AllocError> {
        match self {
            Value::Int(n) => Ok(Value::Int(*n)),
            Value::Text(text) => Ok(Value::Text(text.try_clone(alloc)?)),
        }
    }
}

impl Exact for Stmt {
    fn try_clone(&self, alloc: Global) -> Result<Self, AllocError> {
        let path = self.path.try_clone(alloc)?;
        let tuple = self.tuple.try_clone(alloc)?;
        Ok(Stmt {
            path,
            sign: self.sign,
            tuple,
        })
    }
}

impl Exact for ColDef {
    fn try_clone(&self, alloc: Global) -> Result<Self, AllocError> {
        let name = self.name.try_clone(alloc)?;
        Ok(ColDef {
            name,
            kind: self.kind,
        })
    }
}

impl Exact for RelDef {
    fn try_clone(&self, alloc: Global) -> Result<Self, AllocError> {
        let name = self.name.try_clone(alloc)?;
        let cols = self.cols.try_clone(alloc)?;
        Ok(RelDef {
            name,
            cols,
            key: self.key,
        })
    }
}

impl Exact for UserSlot {
    fn try_clone(&self, alloc: Global) -> Result<Self, AllocError> {
        match self {
            UserSlot::Live(name) => Ok(UserSlot::Live(name.try_clone(alloc)?)),
            UserSlot::Gone => Ok(UserSlot::Gone),
        }
    }
}

impl Exact for Catalog {
    fn try_clone(&self, alloc: Global) -> Result<Self, AllocError> {
        let rels = self.rels.try_clone(alloc)?;
        let users = self.users.try_clone(alloc)?;
        Ok(Catalog { rels, users })
    }
}

impl Exact for Who {
    fn try_clone(&self, alloc: Global) -> Result<Self, AllocError> {
        Ok(*self)
    }
}

impl Exact for Ref {
    fn try_clone(&self, alloc: Global) -> Result<Self, AllocError> {
        Ok(*self)
    }
}

impl Exact for Operand {
    fn try_clone(&self, alloc: Global) -> Result<Self, AllocError> {
        match self {
            Operand::Col(col) => Ok(Operand::Col(*col)),
            Operand::Lit(value) => Ok(Operand::Lit(value.try_clone(alloc)?)),
        }
    }
}

impl Exact for Cond {
    fn try_clone(&self, alloc: Global) -> Result<Self, AllocError> {
        let right = self.right.try_clone(alloc)?;
        Ok(Cond {
            left: self.left,
            cmp: self.cmp,
            right,
        })
    }
}

impl Exact for Item {
    fn try_clone(&self, alloc: Global) -> Result<Self, AllocError> {
        match self {
            Item::Users { alias } => Ok(Item::Users {
                alias: alias.try_clone(alloc)?,
            }),
            Item::Rel {
                alias,
                rel,
                sign,
                path,
            } => Ok(Item::Rel {
                alias: alias.try_clone(alloc)?,
                rel: *rel,
                sign: *sign,
                path: path.try_clone(alloc)?,
            }),
        }
    }
}

impl Exact for Query {
    fn try_clone(&self, alloc: Global) -> Result<Self, AllocError> {
        let take = self.take.try_clone(alloc)?;
        let items = self.items.try_clone(alloc)?;
        let conds = self.conds.try_clone(alloc)?;
        Ok(Query { take, items, conds })
    }
}

impl Exact for SetCol {
    fn try_clone(&self, alloc: Global) -> Result<Self, AllocError> {
        let to = self.to.try_clone(alloc)?;
        Ok(SetCol { col: self.col, to })
    }
}

impl Exact for Held {
    fn try_clone(&self, alloc: Global) -> Result<Self, AllocError> {
        let tuple = self.tuple.try_clone(alloc)?;
        Ok(Held {
            tuple,
            sign: self.sign,
            explicit: self.explicit,
        })
    }
}

impl Exact for World {
    fn try_clone(&self, alloc: Global) -> Result<Self, AllocError> {
        let held = self.held.try_clone(alloc)?;
        Ok(World { held })
    }
}
