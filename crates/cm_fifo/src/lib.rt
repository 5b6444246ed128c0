// Boards that collect conversions in a FIFO of their own.
#![tactic(auto)]

pub mod board;
mod filling;
pub mod law;
mod requests;
