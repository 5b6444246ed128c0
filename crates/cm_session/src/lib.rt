// The lines of a session: what each asks, and how they are read from a text.
#![tactic(auto)]

pub mod forms;
pub mod instructions;
pub mod law;
pub mod op;
pub mod reading;
