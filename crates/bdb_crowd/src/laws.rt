//! What holds of streams of sessions over the belief machine.
ghost use Rattle.bdb_crowd.specs.Laws.{CommitsTellTheState, FirstBatchesLead, StreamsComeTo};

/// A stream is told one reply for each piece, and one for its rest. It leads where its batches lead, run one after the other, and
/// commits as often as these do.
pub fn streams_come_to()
    ensures { StreamsComeTo }
{}

/// Where the first of what a stream asks for is done and has committed k times, the state is the one after what comes before the next
/// batch that is committed.
pub fn commits_tell_the_state()
    ensures { CommitsTellTheState }
{}

/// What comes before that batch leads where the first k committed batches lead, run one after the other.
pub fn first_batches_lead()
    ensures { FirstBatchesLead }
{}
