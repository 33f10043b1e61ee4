//! Lines of several sessions in one stream: each session's batches are put together from its own lines alone, however the
//! lines of other sessions stand between.
#![tactic(auto)]

mod acts;
mod desk;
mod kinds;
mod laws;

pub use acts::acts_of;
pub use desk::{Desk, MOST_QUEUED, SESSIONS};
pub use kinds::{Act, Acts, Event, Events, Line};
pub use laws::{batches_are_one, batches_are_run, limits_agree, own_lines_decide};
