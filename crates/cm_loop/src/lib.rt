// A control loop: the samples of an input ring are filtered into an output ring, by threads beside each
// other.
#![tactic(auto)]

mod entry;
mod filter;
pub mod law;
pub mod looped;
pub mod looping;
mod rings;
pub mod rule;
pub mod side;
pub mod state;
mod text;
pub mod work;
