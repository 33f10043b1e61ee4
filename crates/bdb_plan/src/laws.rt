//! The laws of plans.
ghost use Rattle.bdb_plan.specs.Listings.{ListingsOfPlans};
ghost use Rattle.bdb_plan.specs.Naming.{PlansNameWhatIsSet};
ghost use Rattle.bdb_plan.specs.PlanLaws.{MeaningIsChoices};

/// What a plan means is the rows of all choices with which each step holds.
pub fn meaning_is_choices()
    ensures { MeaningIsChoices }
{}

/// With each step of a plan, each column that it names was set by an earlier one, and each user that it names was chosen by
/// one. Each column taken was set.
pub fn plans_name_what_is_set()
    ensures { PlansNameWhatIsSet }
{}

/// The texts of two plans, line by line.
pub fn listings_of_plans()
    ensures { ListingsOfPlans }
{}
