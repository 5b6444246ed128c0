// Replay of a session in board time, on one thread.
#![tactic(auto)]

pub mod acting;
pub mod at;
pub mod calling;
pub mod closing;
pub mod instructing;
pub mod job;
pub mod law;
pub mod locking;
pub mod passing;
pub mod reading;
pub mod replay;
pub mod seat;
pub mod text;
pub mod trying;
pub mod writing;
