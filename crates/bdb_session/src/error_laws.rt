//! What is refused is told by an error, and nothing else is.
ghost use Rattle.bdb_session.specs.ErrorLaws.{BasesStayValid, RefusalsAreErrors, RunsTellErrors};
ghost use Rattle.bdb_session.specs.UndoErrors.{TimelinesStayValid, UndoRefusalsAreErrors, UndoRunsTellErrors};

/// Over a valid base an event is refused exactly where its reply begins with `error `, and exactly where a line of it does.
pub fn refusals_are_errors()
    ensures { RefusalsAreErrors }
{}

/// Whatever comes, a valid base is followed by a valid one.
pub fn bases_stay_valid()
    ensures { BasesStayValid }
{}

/// Over a valid base one of several events is refused exactly where a line of their replies begins with `error `.
pub fn runs_tell_errors()
    ensures { RunsTellErrors }
{}

/// The same with undo and redo: over a timeline of valid bases an event is refused exactly where its reply begins with `error `, and
/// exactly where a line of it does.
pub fn undo_refusals_are_errors()
    ensures { UndoRefusalsAreErrors }
{}

/// Whatever comes, a timeline of valid bases is followed by one of valid bases.
pub fn timelines_stay_valid()
    ensures { TimelinesStayValid }
{}

/// With undo and redo one of several events is refused exactly where a line of their replies begins with `error `.
pub fn undo_runs_tell_errors()
    ensures { UndoRunsTellErrors }
{}
