// Runs with threads: the lines of a job, each streamed through a ring of its own, beside each other; and
// soaks, which are large jobs made from a number.
#![tactic(auto)]

pub mod done;
pub mod driving;
mod gone;
pub mod law;
pub mod lines;
pub mod running;
pub mod soak;
