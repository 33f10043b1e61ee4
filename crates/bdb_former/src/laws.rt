// What holds of respelled tables, each law as the contract of a function that does nothing.
ghost use Rattle.bdb_former.specs.Laws.{FormatsBecomeThis, KeysGetACount, NamesStay, NoOtherRowIsThere, NoUserWasGone, PlacesStayApart, RelationsGetALength, RelationsHadNoLength, RowsAreRespelled};

/// Each row stands, respelled, at its place, respelled.
#[tactic(auto, using(crate::proofs::TableLemmas::rows_are_respelled))]
pub fn rows_are_respelled()
    ensures { RowsAreRespelled }
{}

/// There is no other row.
#[tactic(auto, using(crate::proofs::TableLemmas::no_other_row_is_there))]
pub fn no_other_row_is_there()
    ensures { NoOtherRowIsThere }
{}

/// Places that differ still do.
#[tactic(auto, using(crate::proofs::SpellLemmas::places_stay_apart))]
pub fn places_stay_apart()
    ensures { PlacesStayApart }
{}

/// The format becomes this one.
#[tactic(auto, using(crate::proofs::SpellLemmas::formats_become_this))]
pub fn formats_become_this()
    ensures { FormatsBecomeThis }
{}

/// The row of a user stays his name.
#[tactic(auto, using(crate::proofs::SpellLemmas::names_stay))]
pub fn names_stay()
    ensures { NamesStay }
{}

/// A row that becomes a user's was a name: no user of the former format is gone.
pub fn no_user_was_gone()
    ensures { NoUserWasGone }
{}

/// The row of a relation becomes that of one whose key has one column.
#[tactic(auto, using(crate::proofs::SpellLemmas::relations_get_a_length))]
pub fn relations_get_a_length()
    ensures { RelationsGetALength }
{}

/// A row that becomes a relation's told no length of a key, and the key of the relation has one column.
pub fn relations_had_no_length()
    ensures { RelationsHadNoLength }
{}

/// The value in a key of table 11 becomes a list of one.
#[tactic(auto, using(crate::proofs::SpellLemmas::keys_get_a_count))]
pub fn keys_get_a_count()
    ensures { KeysGetACount }
{}
