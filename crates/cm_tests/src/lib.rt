// Tests of the top call over memory: threads that are held at a gate. Whole jobs with their answers are the rows of `tests`,
// and inputs and outputs that fail are tried by `.ci/runs`.
#![tactic(auto)]

#[cfg(test)]
mod boards;
#[cfg(test)]
mod gate_tests;
#[cfg(test)]
mod gates;
#[cfg(test)]
mod job;
