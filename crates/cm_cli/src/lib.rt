// The top call: the program's commands over a source and a sink.
#![tactic(auto)]

pub mod answer;
pub mod asked;
pub mod comedi;
pub mod command;
pub mod flow;
pub mod jobs;
pub mod law;
pub mod serving;
pub mod status;
pub mod stop;
pub mod testing;
mod threaded;
