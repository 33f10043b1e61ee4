//! What holds of tables that store a base, and of batches.
ghost use Rattle.bdb_session.specs.Laws.{BatchesAreWholeOrBreakOff, StoredPlansMeanAnswers, StoredPlansMeanChoices, StoredPlansReadFew};

/// Whichever tables store a valid base, the plan of a safe query that fits means over them the query's answers.
pub fn stored_plans_mean_answers()
    ensures { StoredPlansMeanAnswers }
{}

/// Whichever tables store a valid base, the plan of a safe query that fits means over them the rows of all choices with which each of
/// its steps holds, in order, each once.
pub fn stored_plans_mean_choices()
    ensures { StoredPlansMeanChoices }
{}

/// Whichever tables store a valid base, the plan of a query that fits reads over them at most the product of one factor for each
/// item, by the users, its path, and the sizes of the worlds that its path names.
pub fn stored_plans_read_few()
    ensures { StoredPlansReadFew }
{}

/// A batch is whole exactly where none of its events is refused, one after the other, as single ones: then it tells what they tell,
/// leads where they lead, and is committed once. Else it breaks off at the first that is refused, and all is as it was.
pub fn batches_are_whole_or_break_off()
    ensures { BatchesAreWholeOrBreakOff }
{}
