//! What becomes of a base where a user leaves, each law as the contract of a function that does nothing.
ghost use Rattle.bdb_base.specs.UserLaws.{DropUserIsValid, WhoLeavesIsGone, WhoIsGoneIsNoUser, GoneAfterUsersCome, GoneAfterUsersLeave, OthersAreUsers, OthersKeepNames, StandsWithoutUser, StatementsAreParted, StatesNameOthers, NameIsFree, NameIsGivenAgain, ComesBack, NumbersAreLive, NumbersAreCounted};

/// A valid base stays valid where a user leaves, and with him each statement whose path names him.
pub fn drop_user_is_valid()
    ensures { DropUserIsValid }
{}

/// Who leaves is gone.
pub fn who_leaves_is_gone()
    ensures { WhoLeavesIsGone }
{}

/// The number of one who is gone is no user's.
pub fn who_is_gone_is_no_user()
    ensures { WhoIsGoneIsNoUser }
{}

/// Who is gone stays so where a user is added.
pub fn gone_after_users_come()
    ensures { GoneAfterUsersCome }
{}

/// Who is gone stays so where another one leaves.
pub fn gone_after_users_leave()
    ensures { GoneAfterUsersLeave }
{}

/// A number is a user's after one left exactly where it was one's and is not his.
pub fn others_are_users()
    ensures { OthersAreUsers }
{}

/// All other users keep their names where a user leaves.
pub fn others_keep_names()
    ensures { OthersKeepNames }
{}

/// A statement stands after a user left exactly where it stood and its path does not name him.
pub fn stands_without_user()
    ensures { StandsWithoutUser }
{}

/// No state names a user who left.
pub fn states_name_others()
    ensures { StatesNameOthers }
{}

/// The statements that go with a user and those that stay are as many as stood.
pub fn statements_are_parted()
    ensures { StatementsAreParted }
{}

/// No live user has the name of one who left.
pub fn name_is_free()
    ensures { NameIsFree }
{}

/// The name of one who left may be given again, where there is room for one more place.
pub fn name_is_given_again()
    ensures { NameIsGivenAgain }
{}

/// The users' numbers, found by a test of each place or told place by place, are one list.
pub fn numbers_are_live()
    ensures { NumbersAreLive }
{}

/// There are as many numbers of users as names.
pub fn numbers_are_counted()
    ensures { NumbersAreCounted }
{}

/// Where one who left comes back under his name, the catalog is the one that it was.
pub fn comes_back()
    ensures { ComesBack }
{}
