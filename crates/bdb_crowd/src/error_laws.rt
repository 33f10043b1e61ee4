//! Errors as the lines told tell them.
ghost use Rattle.bdb_crowd.specs.TellsErrors.{RepliesTellErrors, StreamsTellErrors};

/// What a stream asks for isn't fine exactly where a line of its reply begins with `error `, or with a number and `: error `.
pub fn replies_tell_errors()
    ensures { RepliesTellErrors }
{}

/// One of the things that a stream asks for isn't fine exactly where a line of all replies tells an error.
pub fn streams_tell_errors()
    ensures { StreamsTellErrors }
{}
