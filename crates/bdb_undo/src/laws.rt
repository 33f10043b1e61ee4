//! What holds of changes and histories, each law as the contract of a function that does nothing.
ghost use Rattle.bdb_undo.specs.ChangeLaws.{BackGivesTheBaseBefore, ForthGivesTheBaseAfter, ChangesAreOne, NothingIsAltered, SameBaseAltersNothing, FewerAreValid, StatementsLead, PutLeads, TakesLead, UpdateLeads, UserLeads, RelationLeads, LeavingLeads};
ghost use Rattle.bdb_undo.specs.Same.{SameContentsAreOne, ContentsAreTheirOwn};
ghost use Rattle.bdb_undo.specs.TimelineLaws.{BasesAreDetermined, ChangesAreDetermined, ChangesAreCounted, NothingKeptStarts, NoteMoves, StayingArrives, BasesMove, ArrivesThere, NoteArrives, BackUndoes, ForthRedoes, LastLeadsHere, ComingLeadsAhead, NothingToUndo, NothingToRedo};

/// Taking a change back gives the base from which it led.
#[tactic(auto, using(crate::proofs::ChangeLemmas::back_gives_the_base_before))]
pub fn back_gives_the_base_before()
    ensures { BackGivesTheBaseBefore }
{}

/// Making a change again gives the base to which it led.
#[tactic(auto, using(crate::proofs::ChangeLemmas::forth_gives_the_base_after))]
pub fn forth_gives_the_base_after()
    ensures { ForthGivesTheBaseAfter }
{}

/// From one base to another leads one change at most.
#[tactic(auto, using(crate::proofs::ChangeLemmas::changes_are_one))]
pub fn changes_are_one()
    ensures { ChangesAreOne }
{}

/// A change that alters nothing leads from a base to itself.
#[tactic(auto, using(crate::proofs::ChangeLemmas::nothing_is_altered))]
pub fn nothing_is_altered()
    ensures { NothingIsAltered }
{}

/// A change that leads from a base to itself alters nothing.
#[tactic(auto, using(crate::proofs::ChangeLemmas::same_base_alters_nothing))]
pub fn same_base_alters_nothing()
    ensures { SameBaseAltersNothing }
{}

/// Statements in order that all stand in a valid base are those of a valid base.
#[tactic(auto, using(crate::proofs::ChangeLemmas::fewer_are_valid))]
pub fn fewer_are_valid()
    ensures { FewerAreValid }
{}

/// Where one list of statements takes the place of another, those of the first that are missing from the second go, and
/// those of the second that are missing from the first come.
#[tactic(auto, using(crate::proofs::ChangeLemmas::statements_lead))]
pub fn statements_lead()
    ensures { StatementsLead }
{}

/// Where a statement is put that did not stand, it comes.
#[tactic(auto, using(crate::proofs::ChangeLemmas::put_leads))]
pub fn put_leads()
    ensures { PutLeads }
{}

/// Where the statements that pass a test are taken away, these go.
pub fn takes_lead()
    ensures { TakesLead }
{}

/// Where the statements that pass a test make room for others, those of them go that are not among the others, and those of
/// the others come that did not stand.
pub fn update_leads()
    ensures { UpdateLeads }
{}

/// Where a user is added, nothing goes or comes but the name.
#[tactic(auto, using(crate::proofs::ChangeLemmas::user_leads))]
pub fn user_leads()
    ensures { UserLeads }
{}

/// Where a relation is added, nothing goes or comes but its definition.
#[tactic(auto, using(crate::proofs::ChangeLemmas::relation_leads))]
pub fn relation_leads()
    ensures { RelationLeads }
{}

/// Where a user leaves, the statements go whose path names him, and nothing comes.
#[tactic(auto, using(crate::proofs::ChangeLemmas::leaving_leads))]
pub fn leaving_leads()
    ensures { LeavingLeads }
{}

/// The base held and the changes kept determine the bases to which undo and redo lead.
#[tactic(auto, using(crate::proofs::TimelineLemmas::bases_are_determined))]
pub fn bases_are_determined()
    ensures { BasesAreDetermined }
{}

/// The bases determine the changes that stand for them.
#[tactic(auto, using(crate::proofs::TimelineLemmas::changes_are_determined))]
pub fn changes_are_determined()
    ensures { ChangesAreDetermined }
{}

/// There are as many changes to undo as bases before, and as many to redo as bases ahead.
#[tactic(auto, using(crate::proofs::TimelineLemmas::changes_are_counted))]
pub fn changes_are_counted()
    ensures { ChangesAreCounted }
{}

/// No changes stand for one base alone.
#[tactic(auto, using(crate::proofs::TimelineLemmas::nothing_kept_starts))]
pub fn nothing_kept_starts()
    ensures { NothingKeptStarts }
{}

/// A change that is noted stands for the move to the base to which it leads.
#[tactic(auto, using(crate::proofs::TimelineLemmas::note_moves))]
pub fn note_moves()
    ensures { NoteMoves }
{}

/// Bases that are the same are one.
#[tactic(auto, using(crate::proofs::SameLemmas::same_contents_are_one))]
pub fn same_contents_are_one()
    ensures { SameContentsAreOne }
{}

/// Each base is the same as itself.
#[tactic(auto, using(crate::proofs::SameLemmas::contents_are_their_own))]
pub fn contents_are_their_own()
    ensures { ContentsAreTheirOwn }
{}

/// Where a command leads to the base held, all bases stay as they are.
#[tactic(auto, using(crate::proofs::TimelineLemmas::staying_arrives))]
pub fn staying_arrives()
    ensures { StayingArrives }
{}

/// Where a command leads to another base, the bases move.
#[tactic(auto, using(crate::proofs::TimelineLemmas::bases_move))]
pub fn bases_move()
    ensures { BasesMove }
{}

/// Wherever a command leads, that base is held.
#[tactic(auto, using(crate::proofs::TimelineLemmas::arrives_there))]
pub fn arrives_there()
    ensures { ArrivesThere }
{}

/// A change that alters something, and is noted, stands for where it leads.
#[tactic(auto, using(crate::proofs::TimelineLemmas::note_arrives))]
pub fn note_arrives()
    ensures { NoteArrives }
{}

/// Going back in a history stands for an undo.
#[tactic(auto, using(crate::proofs::TimelineLemmas::back_undoes))]
pub fn back_undoes()
    ensures { BackUndoes }
{}

/// Going forth in a history stands for a redo.
#[tactic(auto, using(crate::proofs::TimelineLemmas::forth_redoes))]
pub fn forth_redoes()
    ensures { ForthRedoes }
{}

/// The change that an undo takes back leads to the base held, from the one to which undo leads.
pub fn last_leads_here()
    ensures { LastLeadsHere }
{}

/// The change that a redo makes again leads from the base held, to the one to which redo leads.
pub fn coming_leads_ahead()
    ensures { ComingLeadsAhead }
{}

/// Where there is no change to undo, undo leads nowhere.
#[tactic(auto, using(crate::proofs::TimelineLemmas::nothing_to_undo))]
pub fn nothing_to_undo()
    ensures { NothingToUndo }
{}

/// Where there is no change to redo, redo leads nowhere.
#[tactic(auto, using(crate::proofs::TimelineLemmas::nothing_to_redo))]
pub fn nothing_to_redo()
    ensures { NothingToRedo }
{}
