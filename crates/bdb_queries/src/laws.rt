//! The laws of queries: their answers are one list, and a safe query needs no domain.
ghost use Rattle.bdb_queries.specs.QueryLaws.{AnswersAreTheAnswers, AnswersAreOneList, MinusValuesAreInRange, DomainIsEnough, HoldingIsTruth, HoldingIsEnough, AnswersNeedNoDomain, AnswersAreWhatHolds};

/// The list of answers over a domain has the answers, all of them and nothing else.
pub fn answers_are_the_answers()
    ensures { AnswersAreTheAnswers }
{}

/// Two lists that both are the answers over a domain are one list.
pub fn answers_are_one_list()
    ensures { AnswersAreOneList }
{}

/// Where a safe query holds, each value of a minus item is one of its `Users` items and plus items, or a literal.
#[tactic(auto, using(crate::proofs::RangeLemmas::minus_values_are_in_range))]
pub fn minus_values_are_in_range()
    ensures { MinusValuesAreInRange }
{}

/// Where a safe query holds, the chosen tuples have values of the active domain alone.
#[tactic(auto, using(crate::proofs::DomainLemmas::domain_is_enough))]
pub fn domain_is_enough()
    ensures { DomainIsEnough }
{}

/// Over a domain with the values of the active one, an assignment of a safe query is true exactly where it holds.
#[tactic(auto, using(crate::proofs::DomainLemmas::holding_is_truth))]
pub fn holding_is_truth()
    ensures { HoldingIsTruth }
{}

/// Over the active domain an assignment of a safe query is true exactly where it holds.
#[tactic(auto, using(crate::proofs::DomainLemmas::holding_is_enough))]
pub fn holding_is_enough()
    ensures { HoldingIsEnough }
{}

/// A safe query has its answers over each domain that has the values of the active one.
#[tactic(auto, using(crate::proofs::DomainLemmas::answers_need_no_domain))]
pub fn answers_need_no_domain()
    ensures { AnswersNeedNoDomain }
{}

/// The answers of a safe query are the rows of all assignments that hold, in order, each once.
#[tactic(auto, using(crate::proofs::DomainLemmas::answers_are_what_holds))]
pub fn answers_are_what_holds()
    ensures { AnswersAreWhatHolds }
{}
