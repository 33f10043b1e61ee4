//! What holds of grounds and certificates, each law as the contract of a function that does nothing.
ghost use Rattle.bdb_why.specs.WhyLaws.{StatedIsFound, SaysIsBelief, OneRivalIsFound, CheckIsExact, AcceptedIsBelief, CertificateIsAccepted, GroundsGoByStates, EndsGoByLinks, NearIsAtStates, WhyDependsOnNear};

/// A signed tuple's ground is found exactly where the path's world has it.
#[tactic(auto, using(crate::proofs::GroundLemmas::stated_is_found))]
pub fn stated_is_found()
    ensures { StatedIsFound }
{}

/// A certificate says yes exactly where the path believes.
#[tactic(auto, using(crate::proofs::RivalLemmas::says_is_belief))]
pub fn says_is_belief()
    ensures { SaysIsBelief }
{}

/// Where no two statements of one path clash, at most one other tuple of a key is found.
#[tactic(auto, using(crate::proofs::RivalLemmas::one_rival_is_found))]
pub fn one_rival_is_found()
    ensures { OneRivalIsFound }
{}

/// Where no two statements of one path clash, exactly the certificate is accepted.
#[tactic(auto, using(crate::proofs::AcceptLemmas::check_is_exact))]
pub fn check_is_exact()
    ensures { CheckIsExact }
{}

/// Where no two statements of one path clash, an accepted certificate says what the path believes.
#[tactic(auto, using(crate::proofs::AcceptLemmas::accepted_is_belief))]
pub fn accepted_is_belief()
    ensures { AcceptedIsBelief }
{}

/// The certificate is accepted, whatever stands.
#[tactic(auto, using(crate::proofs::AcceptLemmas::certificate_is_accepted))]
pub fn certificate_is_accepted()
    ensures { CertificateIsAccepted }
{}

/// A path's ground is that of its deepest suffix that is a state, so many levels further down as that is shorter.
#[tactic(auto, using(crate::proofs::EndLemmas::grounds_go_by_states))]
pub fn grounds_go_by_states()
    ensures { GroundsGoByStates }
{}

/// The ends of a path that are in a set are its deepest suffix, and those of where that one's suffix link leads.
#[tactic(auto, using(crate::proofs::EndLemmas::ends_go_by_links))]
pub fn ends_go_by_links()
    ensures { EndsGoByLinks }
{}

/// The statements near a path are those at the states among its ends.
#[tactic(auto, using(crate::proofs::NearLemmas::near_is_at_states))]
pub fn near_is_at_states()
    ensures { NearIsAtStates }
{}

/// A certificate depends on the statements near the path alone.
#[tactic(auto, using(crate::proofs::NearLemmas::why_depends_on_near))]
pub fn why_depends_on_near()
    ensures { WhyDependsOnNear }
{}
