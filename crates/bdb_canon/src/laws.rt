//! What holds of the structure, each law as the contract of a function that does nothing.
ghost use Rattle.bdb_canon.specs.CanonLaws.{LinksLeadToStates, EdgesLeadToStates, PlacesAreInRange, RowsStandForPaths};

/// The suffix link of a state leads to the place of its tail's deepest suffix that is a state.
pub fn links_lead_to_states()
    ensures { LinksLeadToStates }
{}

/// The edge of a state for a user leads to the place of the deepest suffix, that is a state, of the path with the user
/// at its end.
#[tactic(auto, using(crate::proofs::PlaceLemmas::edges_lead_to_states))]
pub fn edges_lead_to_states()
    ensures { EdgesLeadToStates }
{}

/// The places of a base's structure are in range.
#[tactic(auto, using(crate::proofs::RangeLemmas::places_are_in_range))]
pub fn places_are_in_range()
    ensures { PlacesAreInRange }
{}

/// The finite structure stands for the worlds of all paths: the world of any path has a signed tuple exactly where there
/// is a row for the tuple at the state to which the path leads.
#[tactic(auto, using(crate::proofs::RowLemmas::rows_stand_for_paths))]
pub fn rows_stand_for_paths()
    ensures { RowsStandForPaths }
{}
