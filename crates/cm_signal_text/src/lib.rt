// The signals part of a text, read.
#![tactic(auto)]

pub mod law;
pub mod reading;
pub mod said;
mod wave_words;
