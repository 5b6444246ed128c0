// The worked examples, and the stored rows of the tests, as theorems about the definitions.
#![tactic(auto)]

pub mod given;
pub mod law;
pub mod losses;
pub mod printing;
