// The texts of samples and of outputs: their lines, how a block of them ends, and blocks one after another.
#![tactic(auto)]

pub mod blocks;
mod bytes;
pub mod declining;
pub mod end;
pub mod ending;
mod gathered;
mod kept;
mod line;
mod line_format;
pub mod output;
pub mod output_block;
pub mod sample_lines;
pub mod sample_text;
mod scales;
pub mod tail;
