// Instructions: single reads and writes, digital lines, their directions, and the time of day.
#![tactic(auto)]

mod bits;
pub mod insn;
pub mod law;
mod site;
