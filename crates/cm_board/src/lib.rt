// What a board is: its subdevices, their ranges and their rules.
#![tactic(auto)]

pub mod board;
mod channel_lines;
pub mod channels;
mod clock;
pub mod flags;
pub mod items;
pub mod kind;
pub mod law;
pub mod lines;
pub mod munge;
mod rows;
pub mod said;
pub mod table;
pub mod times;
pub mod versions;
mod words;
