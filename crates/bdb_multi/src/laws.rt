//! What holds of sessions and their batches, each law as the contract of a function that does nothing.
ghost use Rattle.std.specs.Prelude.{◌≡◌};
ghost use Rattle.bdb_multi.specs.Sessions.{sessions, most_queued};
ghost use Rattle.bdb_multi.specs.Batches.{OwnLinesDecide, BatchesAreRun, BatchesAreOne};

use crate::desk::{MOST_QUEUED, SESSIONS};

/// The constants are the numbers that the definitions name.
pub fn limits_agree()
    ensures sessions { SESSIONS ≡ sessions }
    ensures queued { MOST_QUEUED ≡ most_queued }
{}

/// What becomes of the lines of a session is decided by these lines alone.
#[tactic(auto, using(crate::proofs::SessionLemmas::own_lines_decide))]
pub fn own_lines_decide()
    ensures { OwnLinesDecide }
{}

/// What is run at once, and what is run at commits, are in order the batches of the events: of each session those that its own
/// lines close, and all by the place of the line that closed them.
pub fn batches_are_run()
    ensures { BatchesAreRun }
{}

/// Events have one list of batches alone.
pub fn batches_are_one()
    ensures { BatchesAreOne }
{}
