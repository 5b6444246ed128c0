// A session that is held as a dialogue: each line is answered before the next one is read.
#![tactic(auto)]

pub mod asking;
pub mod claims;
pub mod cmdtest;
pub mod conversing;
pub mod kept;
pub mod law;
pub mod playing;
pub mod replying;
pub mod serving;
pub mod standing;
pub mod subdevices;
pub mod untimed;
