// What a text says of its board and of its signals, as facts: one a line, with all defaults in place.
#![tactic(auto)]

pub mod asked;
mod bounds;
mod channel_facts;
pub mod comedi_facts;
mod command_facts;
pub mod describing;
pub mod fact;
pub mod inquiry;
pub mod law;
mod names;
mod signal_facts;
mod sub_facts;
mod whole;
