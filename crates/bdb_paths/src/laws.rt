//! What holds of states and of deepest suffixes, each law as the contract of a function that does nothing.
ghost use Rattle.bdb_paths.specs.PathLaws.{ListHasStates, StatesHavePrefixes, StatesAreCounted, PutMakesStates, PutCountsWorlds, DeepestSuffixIsLongest, StatesStandForPaths, StatesBelieveForPaths, SuffixesExtend, SuffixesGain, SuffixesLose};

/// The list of states has exactly the states.
#[tactic(auto, using(crate::proofs::StateLemmas::list_has_states))]
pub fn list_has_states()
    ensures { ListHasStates }
{}

/// Each prefix of a state is a state.
#[tactic(auto, using(crate::proofs::StateLemmas::states_have_prefixes))]
pub fn states_have_prefixes()
    ensures { StatesHavePrefixes }
{}

/// There are as many states as worlds are counted.
#[tactic(auto, using(crate::proofs::StateLemmas::states_are_counted))]
pub fn states_are_counted()
    ensures { StatesAreCounted }
{}

/// A put makes states of the prefixes of its path.
#[tactic(auto, using(crate::proofs::StateLemmas::put_makes_states))]
pub fn put_makes_states()
    ensures { PutMakesStates }
{}

/// A put adds as many worlds as its path has prefixes that were no states.
#[tactic(auto, using(crate::proofs::StateLemmas::put_counts_worlds))]
pub fn put_counts_worlds()
    ensures { PutCountsWorlds }
{}

/// In a set that has the empty path, the deepest suffix of a path is a member, a suffix of the path, and none is longer.
#[tactic(auto, using(crate::proofs::SuffixLemmas::deepest_suffix_is_longest))]
pub fn deepest_suffix_is_longest()
    ensures { DeepestSuffixIsLongest }
{}

/// A path has the world of its deepest suffix that is a state.
#[tactic(auto, using(crate::proofs::SuffixLemmas::states_stand_for_paths))]
pub fn states_stand_for_paths()
    ensures { StatesStandForPaths }
{}

/// A path believes what its deepest suffix that is a state believes.
#[tactic(auto, using(crate::proofs::SuffixLemmas::states_believe_for_paths))]
pub fn states_believe_for_paths()
    ensures { StatesBelieveForPaths }
{}

/// In a set that has the prefixes of its members, the deepest suffix of a longer path is found from that of the path.
#[tactic(auto, using(crate::proofs::SuffixLemmas::suffixes_extend))]
pub fn suffixes_extend()
    ensures { SuffixesExtend }
{}

/// Where a set gains a path, it becomes the deepest suffix of the paths that end in it and whose deepest suffix was
/// shorter; for all others nothing changes.
#[tactic(auto, using(crate::proofs::SuffixLemmas::suffixes_gain))]
pub fn suffixes_gain()
    ensures { SuffixesGain }
{}

/// Where a set loses a path other than the empty one, the deepest suffix of that path's tail takes its place; for all
/// others nothing changes.
#[tactic(auto, using(crate::proofs::SuffixLemmas::suffixes_lose))]
pub fn suffixes_lose()
    ensures { SuffixesLose }
{}
