// Commands: their triggers, their list entries, and their text both ways.
#![tactic(auto)]

pub mod command;
pub mod entry;
pub mod law;
pub mod printing;
pub mod reading;
mod separated;
