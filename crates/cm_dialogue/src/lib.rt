// The lines of a dialogue: who says them, how they are read, and the lines before its session.
#![tactic(auto)]

pub mod asked;
pub mod client;
pub mod dialogue_line;
pub mod first_line;
pub mod heading;
pub mod reading;
pub mod script;
pub mod standard;
pub mod stop;
