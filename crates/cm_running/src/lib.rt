// A command that runs in board time, on one thread.
#![tactic(auto)]

pub mod command;
pub mod delayed;
pub mod direct;
pub mod filling;
pub mod handing;
pub mod look_ahead;
pub mod pending;
pub mod putting;
pub mod storing;
pub mod text;
