// What threads do with the ends of a ring: a writer that puts a list of words or a board that puts those of
// an expansion, a munger that follows it, clients that read by copying or in place, and the three threads of
// one command's stream. And how a thread claims the command's subdevice.
#![tactic(auto)]

pub mod boarding;
pub mod claiming;
pub mod client;
pub mod copying;
pub mod feeding;
pub mod handover;
pub mod law;
pub mod mapping;
pub mod munging;
pub mod opening;
pub mod paced;
pub mod reading;
pub mod streaming;
pub mod waiting;
pub mod words;
pub mod workers;
