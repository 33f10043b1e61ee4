// Plans.
ghost use Rattle.std.specs.Prelude.{◌≡◌};
ghost use Rattle.bdb_plan.specs.Fitness.{UsesOnlySet};

use crate::step::Step;
use bdb_base::{List, Ref};
use std::marker::Model;

/// A plan: its steps in order, for so many items, and the columns that its rows have. Each step, and each column taken,
/// uses only what an earlier step set: columns that are set, users that were chosen, and the world of the walk that was
/// begun last, which is of its own item. `Neg` denies the tuple of the columns that were bound of its item, and these alone
/// are set of it from then on.
#[derive(Drop)]
pub struct Plan {
    items: u32,
    steps: List<Step>,
    take: List<Ref>,
}

impl Model for Plan {
    ghost use Rattle.bdb_plan.specs.Fitness.{PlanFields, UsesOnlySet};

    ghost Value = { PlanFields };

    ghost view = { λ p. record { items = p.items; steps = p.steps; take = p.take } };

    ghost invariant = { λ p. UsesOnlySet p.items p.steps p.take };
}

impl Plan {
    /// The plan of these steps, which use only what is set.
    pub fn new(items: u32, steps: List<Step>, take: List<Ref>) -> Self
        requires { UsesOnlySet items steps take }
        ensures { result ≡ record { items = items; steps = steps; take = take } }
    {
        Plan { items, steps, take }
    }

    /// How many items it chooses for.
    pub fn items(&self) -> u32
        ensures { result ≡ self.now.items }
    {
        self.items
    }

    /// The steps, in order.
    pub fn steps(&self) -> &[Step]
        ensures { result.now ≡ self.now.steps }
    {
        self.steps.as_slice()
    }

    /// The columns that the rows have.
    pub fn take(&self) -> &[Ref]
        ensures { result.now ≡ self.now.take }
    {
        self.take.as_slice()
    }
}
