// Whole scans of a ring as a stream that is polled by hand, and several such streams served by one client.
#![tactic(auto)]

pub mod collect;
pub mod law;
pub mod merge;
mod merged_polling;
mod polling;
mod round;
pub mod scan;
pub mod step;
pub mod stream;
