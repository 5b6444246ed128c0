// The channels of a digital subdevice as the bits of one word.
ghost use Rattle.std.specs.Prelude.{◌≡◌, ◌<◌};
ghost use Rattle.cm_insn.specs.Bits as spec;

use crate::site::Site;
use cm_base::prover::shows;
use cm_sub::state::SubState;

impl Site<'_> {
    ghost use Rattle.std.specs.Prelude.{◌≡◌, ◌<◌, ◌≤◌, ◌^◌, length, get_or};
    ghost use Rattle.cm_insn.specs.Bits as spec;
    ghost use Rattle.cm_insn.specs.SiteView.{site_text};

    // Puts the bits of a word to the outputs in a mask, among the first 32 channels.
    pub(crate) fn put_bits(&self, state: &mut SubState, mask: u32, bits: u32)
        requires values { length state.old.values ≡ self.now.sub.now.channels }
        requires outs { length state.old.outs ≡ self.now.sub.now.channels }
        ensures state { state.new ≡ spec.with_bits self.now.sub.now state.old mask bits }
        ensures size { length state.new.values ≡ length state.old.values }
    {
        let sub = self.sub;
        for c in 0..sub.channels {
            let value = self.after_bits(state, mask, bits, c);
            state.values[c as usize] = value;
        }
    }

    // The value of a channel after bits were put to its subdevice.
    fn after_bits(&self, state: &SubState, mask: u32, bits: u32, chan: u32) -> u32
        requires value { chan < length state.now.values }
        requires out { chan < length state.now.outs }
        ensures { result ≡ spec.bit_put self.now.sub.now state.now.outs mask bits chan (get_or state.now.values chan 0) }
    {
        if self.takes_bit(&state.outs, mask, chan) {
            bit(bits, chan)
        } else {
            state.values[chan as usize]
        }
    }

    // Whether a channel is an output among the first 32, with its bit in the mask.
    fn takes_bit(&self, outs: &[bool], mask: u32, chan: u32) -> bool
        requires { chan < length outs.now }
        ensures value { result ≡ spec.takes_bit self.now.sub.now outs.now mask chan }
    {
        chan < 32 && self.is_out(outs, chan) && bit(mask, chan) == 1
    }

    // The word of a subdevice: a bit for each of its first 32 channels.
    pub(crate) fn word(&self, state: &SubState) -> u32
        requires values { length state.now.values ≡ self.now.sub.now.channels }
        requires outs { length state.now.outs ≡ self.now.sub.now.channels }
        ensures { result ≡ spec.bits_of (site_text self.now) state.now }
    {
        let mut word = 0;
        let sub = self.sub;
        for c in 0..sub.channels.min(32) {
            word += self.bit_of(state, c);
        }
        word
    }

    // What a channel adds to the word of its subdevice: its bit, where its value is 1.
    fn bit_of(&self, state: &SubState, chan: u32) -> u32
        requires chan { chan < self.now.sub.now.channels }
        requires low { chan < 32 }
        requires values { length state.now.values ≡ self.now.sub.now.channels }
        requires outs { length state.now.outs ≡ self.now.sub.now.channels }
        ensures value { result ≡ spec.bit_of (site_text self.now) state.now chan }
        ensures high { result ≤ 2 ^ chan }
    {
        // This read shows that each channel has a range.
        let sub = self.sub;
        shows(&sub.channels);
        if self.value(state, chan, 0) == 1 {
            1 << chan
        } else {
            0
        }
    }
}

// A bit of a word.
fn bit(word: u32, number: u32) -> u32
    requires { number < 32 }
    ensures { result ≡ spec.bit word number }
{
    (word >> number) % 2
}
