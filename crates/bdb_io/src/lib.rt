//! Where bytes come from and where they go: sources and sinks with a count of their faults, those in memory, and
//! adapters of readers and writers.
#![tactic(auto)]

mod adapters;
mod drain;
mod failed;
mod feed;
mod quiet;
mod traits;

pub use adapters::{ReadSource, WriteSink};
pub use drain::MemSink;
pub use failed::Failed;
pub use feed::MemSource;
pub use quiet::{NoSource, QuietSink, QuietSource};
pub use traits::{Sink, Source};
