//! What holds of streams of sessions.
ghost use Rattle.bdb_many.specs.Many.{LeadsAsBatches};
ghost use Rattle.bdb_many.specs.Labels.{LinesAreLabelled};

/// Of lines, each has the label of its session before it.
pub fn lines_are_labelled()
    ensures { LinesAreLabelled }
{}

/// A stream leads where the batches of its events lead, run one after the other, however the lines of sessions stand between
/// each other.
pub fn leads_as_batches<S>()
    ensures { LeadsAsBatches S }
{}
