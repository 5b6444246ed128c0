// A board as a text: read, refused at its first failing line, and printed.
#![tactic(auto)]

mod divisors;
mod heads;
pub mod law;
mod line_text;
mod lines;
pub mod printing;
pub mod reading;
mod said;
mod tally;
mod unchecked;
mod whole;
