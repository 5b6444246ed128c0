// A watch: lines beside each other, whose scans one client reads in turn.
#![tactic(auto)]

pub mod beside;
pub mod blocks;
pub mod client;
pub mod events;
pub mod job;
pub mod opening;
pub mod side;
pub mod watcher;
pub mod watching;
