// Where a command leads among the bases that a session knows of.
ghost use Rattle.std.specs.Prelude.{◌≡◌};
ghost use Rattle.bdb_session.specs.Undoing.{course_of_command};

use bdb_syntax::Command;

/// Where a command leads among the bases: back to the one before, forth to the one ahead, or onward from the one held.
#[derive(Clone, Copy, Drop)]
pub enum Course {
    Back,
    Forth,
    Onward,
}

/// The course of a command.
pub(crate) fn course_of(command: &Command) -> Course
    ensures { result ≡ course_of_command command.now }
{
    match command {
        Command::Undo => Course::Back,
        Command::Redo => Course::Forth,
        _ => Course::Onward,
    }
}
