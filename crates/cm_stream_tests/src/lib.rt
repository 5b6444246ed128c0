// Tests of streams of scans and of their merge.
#![tactic(auto)]

#[cfg(test)]
mod stream;
