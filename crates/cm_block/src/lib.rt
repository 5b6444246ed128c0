// The text of a job's lines: the block of each line that reads, and the lines of an expansion.
#![tactic(auto)]

pub mod expanding;
pub mod going;
pub mod law;
pub mod whole;
