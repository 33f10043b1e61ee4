// The rows of the twelve tables.
use bdb_base::{RelDef, Sign, Tuple, UserSlot};

/// A row of one of the twelve tables.
#[derive(Drop)]
pub enum TabRow {
    /// Of table 1: the format.
    Meta(u32),
    /// Of table 2: a place of the list of users.
    User(UserSlot),
    /// Of table 3: a relation.
    Rel(RelDef),
    /// Of table 4: a tuple.
    Tuple(Tuple),
    /// Of table 5: a tuple's number.
    Tid(u32),
    /// Of table 6: a world's depth.
    Depth(u32),
    /// Of tables 7 and 9: the number of the world that a link or an edge leads to.
    Link(u32),
    /// Of tables 8 and 10.
    Empty,
    /// Of table 11: the sign of a tuple in a world, and whether it is stated at that very world.
    Val { sign: Sign, explicit: bool },
    /// Of table 12: a statement's sign.
    Plain(Sign),
}
