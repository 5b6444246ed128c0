// Tests of calls that meet the outside, of a command's text, and of places that seats share.
#![tactic(auto)]

#[cfg(test)]
mod base;
#[cfg(test)]
mod cmd;
#[cfg(test)]
mod sub;
