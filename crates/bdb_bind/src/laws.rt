// Laws of binding, each as the clause of a function that does nothing.
ghost use Rattle.bdb_bind.specs.Fits.{WhatIsBoundFits};
ghost use Rattle.bdb_bind.specs.Indexes.{WhoLeavesIsForgotten};
ghost use Rattle.bdb_bind.specs.Safe.{TestTellsBound, TestTellsSafe};

/// What an allowed command that isn't refused is bound to fits the catalog: with it a valid base stays valid, but for
/// clashes and for what the base may be full of, and a query is safe.
#[tactic(auto, using(crate::proofs::Fitting::what_is_bound_fits))]
pub fn what_is_bound_fits()
    ensures { WhatIsBoundFits }
{}

/// Where an index of a catalog forgets the name of a live user who leaves, it is that of the catalog without him.
#[tactic(auto, using(crate::proofs::ForgetLemmas::who_leaves_is_forgotten))]
pub fn who_leaves_is_forgotten()
    ensures { WhoLeavesIsForgotten }
{}

/// The test of bound columns tells exactly the bound ones.
#[tactic(auto, using(crate::proofs::BoundLemmas::test_tells_bound))]
pub fn test_tells_bound()
    ensures { TestTellsBound }
{}

/// The test of safety tells exactly the safe queries.
#[tactic(auto, using(crate::proofs::SafetyLemmas::test_tells_safe))]
pub fn test_tells_safe()
    ensures { TestTellsSafe }
{}
