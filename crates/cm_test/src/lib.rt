// The command test: whether a subdevice takes a command, and what it would take instead.
#![tactic(auto)]

pub mod accepting;
pub mod law;
pub mod limits;
pub mod lists;
mod orders;
pub mod sources;
pub mod test;
pub mod testing;
pub mod times;
