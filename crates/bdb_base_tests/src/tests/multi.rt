// Worked lines of sessions.
ghost use Rattle.std.specs.Prelude.{◌<◌};
ghost use Rattle.bdb_multi.specs.Sessions.{sessions, AreSessions};

use bdb_base::List;
use bdb_multi::{Act, Event, Events, Line, MOST_QUEUED, acts_of};
use std::alloc::{AllocError, Global};
use std::test::Fail;

/// The lines of the worked stream, each with its session.
const LINES: [(u8, &str); 18] = [
    (0, "create user 'Alice'"),
    (0, "create relation S(k text, v text)"),
    (1, "begin"),
    (1, "insert into S values('a','x')"),
    (2, "insert into S values('a','y')"),
    (1, "commit"),
    (2, "begin"),
    (2, "insert into S values('b','z')"),
    (2, "commit"),
    (1, "commit"),
    (3, "abort"),
    (3, "begin"),
    (15, "begin"),
    (3, "begin"),
    (3, "commit"),
    (15, "show tables"),
    (15, "abort"),
    (15, "commit"),
];

/// What becomes of them, in order.
const SHOWN: &str =
    "one, one, begun, queued, one, batch of 1, begun, queued, batch of 1, not begun, \
not begun, begun, begun, already begun, batch of 0, queued, aborted, not begun, ";

/// Adds a line of a session.
#[tactic(auto, using(bdb_multi::proofs::DeskLemmas::sessions_more))]
fn add(alloc: Global, events: &mut Events, session: u8, text: &str) -> Result<(), AllocError>
    requires session { session < sessions }
    requires events { AreSessions events.old }
    ensures { AreSessions events.new }
{
    let line = if text == "begin" {
        Line::Begin
    } else if text == "commit" {
        Line::Commit
    } else if text == "abort" {
        Line::Abort
    } else {
        Line::Cmd(List::from_vec(text.as_bytes().to_vec(alloc)?))
    };
    events.push(Event { session, line })
}

fn shown(alloc: Global, acts: &[Act]) -> Result<String, AllocError> {
    let mut text = String::new(alloc);
    for act in acts {
        match act {
            Act::Begun => text.push_str("begun")?,
            Act::Queued => text.push_str("queued")?,
            Act::Aborted => text.push_str("aborted")?,
            Act::ErrBegun => text.push_str("already begun")?,
            Act::ErrNotBegun => text.push_str("not begun")?,
            Act::ErrBatch => text.push_str("full")?,
            Act::One(_) => text.push_str("one")?,
            Act::Batch(commands) => {
                let line = format!(in alloc; "batch of {}", commands.len())?;
                text.push_str(line.as_str())?;
            }
        }
        text.push_str(", ")?;
    }
    Ok(text)
}

#[test]
fn tells_what_becomes_of_lines(rt: HostRuntime) -> Result<(), Fail> {
    let mut events = List::new(rt.alloc());
    for (session, text) in LINES {
        if session < 16 {
            add(rt.alloc(), &mut events, session, text)?;
        }
    }
    let acts = acts_of(rt.alloc(), events.as_slice())?;
    let text = shown(rt.alloc(), acts.as_slice())?;
    assert_eq!(rt; text.as_str(), SHOWN);
    Ok(())
}

#[test]
fn no_more_commands_wait_than_may(rt: HostRuntime) -> Result<(), Fail> {
    for (count, last) in [
        (MOST_QUEUED, "queued, batch of 64, "),
        (MOST_QUEUED + 1, "full, batch of 64, "),
    ] {
        let mut events = List::new(rt.alloc());
        add(rt.alloc(), &mut events, 7, "begin")?;
        for _command in 0..count {
            add(rt.alloc(), &mut events, 7, "show tables")?;
        }
        add(rt.alloc(), &mut events, 7, "commit")?;
        let acts = acts_of(rt.alloc(), events.as_slice())?;
        let text = shown(rt.alloc(), acts.as_slice())?;
        assert!(rt; text.as_str().ends_with(last));
    }
    Ok(())
}
