//! What settled rows are, each law as the contract of a function that does nothing.
ghost use Rattle.bdb_val.specs.Laws.{SettledRowsAreRight, RightRowsAreSettled, NextMarksAreSettled, SettlingIsRight, NoneSettlesTheSettled, SettlingIsReal, SettlingIsApart, SettledRowsAreHeld, HeldRowsAreExplicit, HeldRowsAreSettled, StepsWriteDifferences};

/// Where all rows of a tuple are settled, they are the rows of the worlds.
pub fn settled_rows_are_right()
    ensures { SettledRowsAreRight }
{}

/// The rows of the worlds are settled.
#[tactic(auto, using(crate::proofs::SettledLemmas::right_rows_are_settled))]
pub fn right_rows_are_settled()
    ensures { RightRowsAreSettled }
{}

/// The row that a tuple is to have, by the rows that were read, is the settled one.
pub fn next_marks_are_settled()
    ensures { NextMarksAreSettled }
{}

/// After the changes that settle a world's rows each tuple has the row that it is to have.
#[tactic(auto, using(crate::proofs::SettlingLemmas::settling_is_right))]
pub fn settling_is_right()
    ensures { SettlingIsRight }
{}

/// Rows that are as they are to be need no change.
#[tactic(auto, using(crate::proofs::SettlingLemmas::none_settles_the_settled))]
pub fn none_settles_the_settled()
    ensures { NoneSettlesTheSettled }
{}

/// No change leaves a row as it was.
#[tactic(auto, using(crate::proofs::SettlingLemmas::settling_is_real))]
pub fn settling_is_real()
    ensures { SettlingIsReal }
{}

/// Where no number stands twice, none is changed twice.
#[tactic(auto, using(crate::proofs::ApartLemmas::settling_is_apart))]
pub fn settling_is_apart()
    ensures { SettlingIsApart }
{}

/// Where the explicit rows are the statements and all rows are settled, the tables hold the rows of the worlds.
pub fn settled_rows_are_held()
    ensures { SettledRowsAreHeld }
{}

/// Where tables hold tuples and the rows of the worlds, the explicit rows are the statements.
pub fn held_rows_are_explicit()
    ensures { HeldRowsAreExplicit }
{}

/// The rows of the worlds are settled.
pub fn held_rows_are_settled()
    ensures { HeldRowsAreSettled }
{}

/// Settling the group of a state makes as many writes as there are places at which the tables differ.
pub fn steps_write_differences()
    ensures { StepsWriteDifferences }
{}
