// Who may use a subdevice, and what a subdevice keeps.
#![tactic(auto)]

pub mod claim;
pub mod errno;
pub mod files;
pub mod law;
pub mod owners;
pub mod state;
mod steps;
mod turns;
