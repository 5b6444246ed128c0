// The lines of a job: what each asks, and how they are read over a board and its signals.
#![tactic(auto)]

pub mod accepting;
pub mod ahead;
pub mod asked;
pub mod expand_lines;
pub mod head;
pub mod job;
pub mod law;
pub mod line;
pub mod loop_accepting;
pub mod loop_asked;
pub mod loop_job;
pub mod loop_line;
pub mod loop_reading;
pub mod reading;
pub mod test_lines;
