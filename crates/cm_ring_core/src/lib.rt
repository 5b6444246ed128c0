// Rings of samples: one for one thread, as an unbounded list cut at five places, and the rule and the
// kinds of step of a ring that three threads share.
#![tactic(auto)]

pub mod cell;
pub mod kinds;
pub mod law;
pub mod local;
pub mod rule;
pub mod view;
