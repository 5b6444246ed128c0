// Tests of shared rings, and the rule by which the rings of tests munge.
#![tactic(auto)]

#[cfg(test)]
mod ring;
pub mod rule;
