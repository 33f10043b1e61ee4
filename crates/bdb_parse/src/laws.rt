// The reading of commands meets the grammar.
ghost use Rattle.bdb_parse.specs.Laws.{CommandsAreRead};

/// The command that is read of tokens is the one that they spell by the grammar, and tokens spell at most one.
pub fn commands_are_read()
    ensures { CommandsAreRead }
{}
