// The steps of plans.

use bdb_base::{Cond, Exact, Operand, Who};
use std::alloc::{AllocError, Global};

/// A step of a plan. Items are named by their places in the query.
#[derive(Drop)]
pub enum Step {
    /// Chooses a user for a `Users` item.
    User { item: u32 },
    /// Begins an item's walk at the world of the empty path.
    Start { item: u32 },
    /// Goes on with the walk along the edge of a user.
    Edge { item: u32, who: Who },
    /// Tests that two users that follow each other on the item's path differ.
    Differ { item: u32, left: Who, right: Who },
    /// Chooses a tuple of a relation that the walk's world has with plus.
    Pos { item: u32, rel: u32 },
    /// Sets a column of a minus item to a value.
    Bind { item: u32, col: u32, right: Operand },
    /// Tests that the walk's world denies the tuple of the columns that were set.
    Neg { item: u32, rel: u32 },
    /// Tests a comparison.
    Test { cond: Cond },
}

impl Exact for Step {
    fn try_clone(&self, alloc: Global) -> Result<Self, AllocError> {
        match self {
            Step::User { item } => Ok(Step::User { item: *item }),
            Step::Start { item } => Ok(Step::Start { item: *item }),
            Step::Edge { item, who } => Ok(Step::Edge {
                item: *item,
                who: *who,
            }),
            Step::Differ { item, left, right } => Ok(Step::Differ {
                item: *item,
                left: *left,
                right: *right,
            }),
            Step::Pos { item, rel } => Ok(Step::Pos {
                item: *item,
                rel: *rel,
            }),
            Step::Bind { item, col, right } => Ok(Step::Bind {
                item: *item,
                col: *col,
                right: right.try_clone(alloc)?,
            }),
            Step::Neg { item, rel } => Ok(Step::Neg {
                item: *item,
                rel: *rel,
            }),
            Step::Test { cond } => Ok(Step::Test {
                cond: cond.try_clone(alloc)?,
            }),
        }
    }
}
