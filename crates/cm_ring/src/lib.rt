// A ring of samples that three threads share: a writer puts samples, a munger munges them in place,
// and a reader reads and releases them.
#![tactic(auto)]

pub mod munger;
pub mod open;
mod place;
pub mod reader;
mod steps;
pub mod writer;
