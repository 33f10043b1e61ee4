// The printed form of a command reads back.
ghost use Rattle.bdb_parse.specs.RoundTrip.{PrintedReadsBack};

/// The printed form of a command reads back as the command itself, where the command has a printed form and its numbers
/// are in range.
#[tactic(auto, using(crate::proofs::RoundTripLemmas::printed_reads_back))]
pub fn printed_reads_back()
    ensures { PrintedReadsBack }
{}
