// What becomes of a list of events.
ghost use Rattle.std.specs.Prelude.{◌≡◌, IfOk};
ghost use Rattle.bdb_multi.specs.Sessions.{AreSessions, acts_of};

use crate::desk::Desk;
use crate::kinds::{Acts, Event};
use bdb_base::{Exact, List};
use std::alloc::{AllocError, Global};

/// What becomes of events, from no open batch on: one act for each. The only error is running out of memory.
pub fn acts_of(alloc: Global, events: &[Event]) -> Result<Acts, AllocError>
    requires { AreSessions events.now }
    ensures { IfOk result (λ acts. acts ≡ acts_of events.now) }
{
    let mut desk = Desk::new(alloc);
    let mut acts = List::new(alloc);
    for event in events {
        acts.push(desk.step(event.session, event.line.try_clone(alloc)?)?)?;
    }
    Ok(acts)
}
