// Walks along the paths of items.
ghost use Rattle.std.specs.Prelude.{◌≡◌, ◌++◌, OnOk};
ghost use Rattle.bdb_plan.specs.PlanOf.{differ_from, walk_of};

use bdb_base::{List, Who};
use bdb_plan::Step;
use std::alloc::AllocError;

/// Appends the walk of an item: from the empty path along each user of its path.
#[tactic(auto, using(crate::proofs::TurnLemmas::walk_turn, crate::proofs::TurnLemmas::walk_end))]
pub fn append_walk(steps: &mut List<Step>, item: u32, path: &[Who]) -> Result<(), AllocError>
    ensures { OnOk result (steps.new ≡ steps.old ++ walk_of item path.now) }
{
    steps.push(Step::Start { item })?;
    let mut before = None;
    for who in path {
        append_differ(steps, item, before, *who)?;
        steps.push(Step::Edge { item, who: *who })?;
        before = Some(*who);
    }
    Ok(())
}

/// Appends the step that keeps two elements of a path apart that follow each other; none where both are fixed users.
fn append_differ(
    steps: &mut List<Step>,
    item: u32,
    before: Option<Who>,
    who: Who,
) -> Result<(), AllocError>
    ensures { OnOk result (steps.new ≡ steps.old ++ differ_from item before who) }
{
    match before {
        None => Ok(()),
        Some(Who::User(left)) => match who {
            Who::User(_) => Ok(()),
            Who::Of(_) => {
                let left = Who::User(left);
                steps.push(Step::Differ {
                    item,
                    left,
                    right: who,
                })
            }
        },
        Some(Who::Of(left)) => {
            let left = Who::Of(left);
            steps.push(Step::Differ {
                item,
                left,
                right: who,
            })
        }
    }
}
