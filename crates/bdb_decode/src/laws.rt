// What holds of tables of any bytes, each law as the contract of a function that does nothing.
ghost use Rattle.bdb_decode.specs.ExplicitLaws.{FewHaveStatements, HeldRowsHavePlaces, HeldRowsMakeStatements, MisplacedHaveNoPlaces, StatedRowsAreExplicit};
ghost use Rattle.bdb_decode.specs.Laws.{FormerKeysHaveOneColumn, FormerUsersAreLive, OneBaseAtMost, OthersStandForNone};
ghost use Rattle.bdb_decode.specs.SettledRows.{PlacedRowsAreKeyed};
ghost use Rattle.bdb_decode.specs.Whole.{BaseStatementsAreHeld, HeldBasesAreStated, HeldBasesAreWhole};

/// Tables stand for one base at most.
pub fn one_base_at_most()
    ensures { OneBaseAtMost }
{}

/// Tables of another format than this one and the one before it stand for no base.
pub fn others_stand_for_none()
    ensures { OthersStandForNone }
{}

/// A base that tables store in the format before this one has keys of one column.
pub fn former_keys_have_one_column()
    ensures { FormerKeysHaveOneColumn }
{}

/// A base that tables store in the format before this one has no user who is gone.
pub fn former_users_are_live()
    ensures { FormerUsersAreLive }
{}

/// Where no two of the statements that explicit rows make clash at a path, the explicit rows are the statements.
pub fn stated_rows_are_explicit()
    ensures { StatedRowsAreExplicit }
{}

/// Where tables hold the rows of statements, no row is foreign or without its place.
pub fn held_rows_have_places()
    ensures { HeldRowsHavePlaces }
{}

/// Where tables hold the rows of statements, the explicit rows make these statements.
pub fn held_rows_make_statements()
    ensures { HeldRowsMakeStatements }
{}

/// Not both: all rows have their places, and one is foreign or without its place.
pub fn misplaced_have_no_places()
    ensures { MisplacedHaveNoPlaces }
{}

/// Not both: the explicit rows make no more statements than a base may have, and rows are misplaced or too many.
pub fn few_have_statements()
    ensures { FewHaveStatements }
{}

/// Rows that have their places are of worlds and tuples that there are.
pub fn placed_rows_are_keyed()
    ensures { PlacedRowsAreKeyed }
{}

/// A valid base that tables store has whole statements: all rows have their places, and each tuple and world is stated.
pub fn held_bases_are_whole()
    ensures { HeldBasesAreWhole }
{}

/// The statements that the explicit rows make are those of the valid base that the tables store.
pub fn held_bases_are_stated()
    ensures { HeldBasesAreStated }
{}

/// Where the explicit rows make statements that are whole, the tables hold all of their base but the inherited rows.
pub fn base_statements_are_held()
    ensures { BaseStatementsAreHeld }
{}
