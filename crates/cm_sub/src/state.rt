// What a subdevice keeps between two instructions.
use cm_base::transfer::NoMemory;
use std::alloc::Global;
use std::marker::Model;

/// What a subdevice keeps of each of its channels: as many values as directions.
#[derive(Drop)]
pub struct SubState {
    /// The value that was last written to the channel.
    pub values: Vec<u32>,
    /// Whether the channel was made an output (Comedi: `io_bits` of a subdevice).
    pub outs: Vec<bool>,
}

impl Model for SubState {
    ghost use Rattle.cm_sub.specs.State.{StateText, IsState};

    ghost Value = { StateText };

    ghost use Rattle.cm_sub.specs.StateView.{state_text};

    ghost view = { state_text };

    ghost invariant = { λ s. IsState (state_text s) };
}

impl SubState {
    ghost use Rattle.std.specs.Prelude.{◌≡◌, IfOk};
    ghost use Rattle.cm_sub.specs.State.{first_state};

    /// What a subdevice keeps before the first instruction: the value 0 of each channel, which is an
    /// input. NoMemory where memory runs out.
    pub fn new(alloc: Global, channels: u32) -> Result<SubState, NoMemory>
        ensures { IfOk result (λ state. state ≡ first_state channels) }
    {
        Ok(SubState {
            values: vec![in alloc; 0u32; channels as usize]?,
            outs: vec![in alloc; false; channels as usize]?,
        })
    }
}
