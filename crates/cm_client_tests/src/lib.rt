// Tests of workers that wait for each other, and of a line's block.
#![tactic(auto)]

#[cfg(test)]
mod run;
#[cfg(test)]
mod waiting;
