// What the steps of a change make of tables that store a base with its worlds, each law as the contract of a function that
// does nothing.
ghost use Rattle.bdb_update.specs.ChangeLaws.{PutDiffersAt, DropDiffersAt, PutIsWithin, DropIsWithin, DropLeavesStates, DropLeavesTuples, SettledGroupStores, NumberPutStores, NumberTakenStores, OtherWorldsStore, WorldComesWithRows, WorldGoesWithRows, PlainWorldInherits, SameReachStores, PutSaysSign, DropSaysNone};

/// With one statement more, statements differ in its tuple at its path.
pub fn put_differs_at()
    ensures { PutDiffersAt }
{}

/// With one statement less, they do too.
pub fn drop_differs_at()
    ensures { DropDiffersAt }
{}

/// The states and tuples of statements are among those with one statement more.
pub fn put_is_within()
    ensures { PutIsWithin }
{}

/// Those with one statement less are among those before.
pub fn drop_is_within()
    ensures { DropIsWithin }
{}

/// Without a statement only prefixes of its path may no longer be states.
pub fn drop_leaves_states()
    ensures { DropLeavesStates }
{}

/// Without the last statement of a tuple, this tuple alone is told no longer.
pub fn drop_leaves_tuples()
    ensures { DropLeavesTuples }
{}

/// A tuple's row in a world becomes explicit, or no longer is, and its group is settled from there.
pub fn settled_group_stores()
    ensures { SettledGroupStores }
{}

/// A tuple that has none gets a number.
pub fn number_put_stores()
    ensures { NumberPutStores }
{}

/// A tuple that no statement of the base has loses its number.
pub fn number_taken_stores()
    ensures { NumberTakenStores }
{}

/// Worlds come or go.
pub fn other_worlds_store()
    ensures { OtherWorldsStore }
{}

/// A world that comes brings rows of its own, and no others change.
pub fn world_comes_with_rows()
    ensures { WorldComesWithRows }
{}

/// A world that goes takes its rows with it, and no others.
pub fn world_goes_with_rows()
    ensures { WorldGoesWithRows }
{}

/// The world of a path that is no state has the rows of the world to which its suffix link leads, none of them explicit.
pub fn plain_world_inherits()
    ensures { PlainWorldInherits }
{}

/// Statements with the same states, and statements with the same tuples, bring about the same worlds and numbers.
pub fn same_reach_stores()
    ensures { SameReachStores }
{}

/// Statements with one more say its sign of its tuple at its path.
pub fn put_says_sign()
    ensures { PutSaysSign }
{}

/// Statements with one less say nothing of its tuple at its path.
pub fn drop_says_none()
    ensures { DropSaysNone }
{}
