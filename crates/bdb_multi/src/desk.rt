// The open batches.
ghost use Rattle.std.specs.Prelude.{◌≡◌, ◌<◌, [], ◌∷◌, ◌++◌, Some, IfOk, OnOk, OnErr};
ghost use Rattle.bdb_multi.specs.declared.kinds.Event.{Event};
ghost use Rattle.bdb_multi.specs.Sessions.{sessions, act_after};
ghost use Rattle.bdb_multi.specs.Slots.{AreSlotsOf, slot_act, slot_after, with_command};

use crate::kinds::{Act, Line};
use bdb_base::{Lines, List};
use std::alloc::{AllocError, Global};
use std::marker::Model;

/// How many sessions there are, numbered from 0.
pub const SESSIONS: usize = 16;

/// How many commands wait in a batch, at most.
pub const MOST_QUEUED: usize = 64;

/// The open batches of sessions. Contracts see for each session the commands that wait, and `AreSlotsOf` tells of which events.
#[derive(Drop)]
pub struct Desk {
    slots: [Option<Lines>; 16],
    alloc: Global,
}

impl Model for Desk {
    ghost use Rattle.std.specs.Prelude.{◌≡◌, ℕ, List, Option, length};

    ghost Value = { List (Option (List (List ℕ))) };

    ghost view = { λ d. d.slots };

    ghost invariant = { λ d. length d.slots ≡ 16 };
}

impl Desk {
    /// A desk with no open batch. It takes no memory.
    pub fn new(alloc: Global) -> Self
        ensures { AreSlotsOf result [] }
    {
        Desk {
            slots: [
                None, None, None, None, None, None, None, None, None, None, None, None, None, None,
                None, None,
            ],
            alloc,
        }
    }

    /// Takes the next line of a session, and tells what becomes of it. Whichever events the desk stood for, it stands for them
    /// and this one. The only error is running out of memory, and the desk is unchanged then.
    pub fn step(&mut self, session: u8, line: Line) -> Result<Act, AllocError>
        requires { session < sessions }
        ensures act { (es : List Event) → AreSlotsOf self.old es
            → IfOk result (λ act. act ≡ act_after es (record { session = session; line = line })) }
        ensures stands { OnOk result ((es : List Event) → AreSlotsOf self.old es
            → AreSlotsOf self.new (es ++ record { session = session; line = line } ∷ [])) }
        ensures same { OnErr result (self.new ≡ self.old) }
    {
        step_slot(self.alloc, &mut self.slots[session as usize], line)
    }
}

/// Takes a line of a session, by what is kept of its open batch. After a refusal that is unchanged.
fn step_slot(alloc: Global, kept: &mut Option<Lines>, line: Line) -> Result<Act, AllocError>
    ensures act { IfOk result (λ act. act ≡ slot_act kept.old line) }
    ensures after { OnOk result (kept.new ≡ slot_after kept.old line) }
    ensures same { OnErr result (kept.new ≡ kept.old) }
{
    match kept.take() {
        None => match line {
            Line::Begin => {
                *kept = Some(List::new(alloc));
                Ok(Act::Begun)
            }
            Line::Commit => Ok(Act::ErrNotBegun),
            Line::Abort => Ok(Act::ErrNotBegun),
            Line::Cmd(command) => Ok(Act::One(command)),
        },
        Some(queue) => match line {
            Line::Begin => {
                *kept = Some(queue);
                Ok(Act::ErrBegun)
            }
            Line::Commit => Ok(Act::Batch(queue)),
            Line::Abort => Ok(Act::Aborted),
            Line::Cmd(command) => put_back(kept, queue, command),
        },
    }
}

/// Puts an open batch back, with a command more where one may wait. After a refusal it is put back as it was.
fn put_back(
    kept: &mut Option<Lines>,
    mut queue: Lines,
    command: List<u8>,
) -> Result<Act, AllocError>
    ensures act { IfOk result (λ act. act ≡ slot_act (Some queue) (Line.Cmd command)) }
    ensures after { OnOk result (kept.new ≡ Some (with_command queue command)) }
    ensures same { OnErr result (kept.new ≡ Some queue) }
{
    if queue.len() >= MOST_QUEUED {
        *kept = Some(queue);
        return Ok(Act::ErrBatch);
    }
    match queue.push(command) {
        Ok(()) => {
            *kept = Some(queue);
            Ok(Act::Queued)
        }
        Err(stop) => {
            *kept = Some(queue);
            Err(stop)
        }
    }
}
