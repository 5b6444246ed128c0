// What each instruction does.
ghost use Rattle.std.specs.Prelude.{◌≡◌, ◌≤◌, ◌^◌, length};
ghost use Rattle.cm_insn.specs.Insn as table;
ghost use Rattle.cm_insn.specs.Insn.{answer_of, insn_at, state_after, words_after};
ghost use Rattle.cm_insn.specs.Kept.{IsAsLong};

use crate::site::Site;
use cm_base::prover::shows;
use cm_board::board::Sub;
use cm_cmd::entry::{chan, range};
use cm_signal::signals::Signals;
use cm_sub::errno::Errno;
use cm_sub::state::SubState;

/// The kinds of instruction (Comedi: `INSN_*`).
#[derive(Clone, Copy, Debug, PartialEq, Eq)]
pub enum InsnCode {
    /// Reads a channel into each data word.
    Read,
    /// Writes the data words to an output, one after another.
    Write,
    /// Puts the bits of the second data word to the digital outputs in the mask that is the first,
    /// and then reads all lines into the second.
    Bits,
    /// Makes a digital channel an input by the word 0 and an output by the word 1.
    Config,
    /// Tells the seconds and the microseconds of the time.
    Gtod,
}

/// An instruction and the list entry that it is for.
#[derive(Clone, Copy, Debug, PartialEq, Eq)]
pub struct Instr {
    pub code: InsnCode,
    /// A channel and a range, packed as by `entry::pack`. Bits and the time of day have none.
    pub entry: u32,
}

/// Does an instruction on the subdevice at the place `index` of its board, at the time `now` in
/// nanoseconds, and answers the number of data words. An instruction that the subdevice doesn't
/// take is `Inval`, and changes nothing.
pub fn insn(
    sub: &Sub,
    index: u32,
    signals: &Signals,
    state: &mut SubState,
    what: &Instr,
    words: &mut [u32],
    now: u64,
) -> Result<u32, Errno>
    requires state { length state.old.values ≡ sub.now.channels }
    requires words { length words.old ≤ 64 }
    requires now { now ≤ signals.now.horizon }
    ensures answer { result ≡ answer_of (insn_at sub.now index signals.now now state.old what.now words.old) }
    ensures state { state.new ≡ state_after (insn_at sub.now index signals.now now state.old what.now words.old) state.old }
    ensures words { words.new ≡ words_after (insn_at sub.now index signals.now now state.old what.now words.old) words.old }
    ensures kept { IsAsLong state.old state.new }
{
    // These reads show that the horizon is at most 10^15, and that each channel has a direction.
    shows(&signals.horizon);
    shows(&state.values.len());
    let site = Site {
        sub,
        index,
        signals,
        time: now,
    };
    match what.code {
        InsnCode::Read => site.read(state, what.entry, words),
        InsnCode::Write => site.write(state, what.entry, words),
        InsnCode::Bits => site.bits(state, words),
        InsnCode::Config => site.config(state, what.entry, words),
        InsnCode::Gtod => site.gtod(words),
    }
}

impl Site<'_> {
    ghost use Rattle.std.specs.Prelude.{◌≡◌, ◌<◌, ◌≤◌, length};
    ghost use Rattle.cm_cmd.specs.Entry as bits;
    ghost use Rattle.cm_insn.specs.Insn as table;
    ghost use Rattle.cm_insn.specs.Insn.{answer_of, state_after, words_after};
    ghost use Rattle.cm_insn.specs.SiteView.{site_text};
    ghost use Rattle.cm_sub.specs.State.{StateText};

    // Reads a channel into each word.
    fn read(&self, state: &SubState, entry: u32, words: &mut [u32]) -> Result<u32, Errno>
        requires values { length state.now.values ≡ self.now.sub.now.channels }
        requires outs { length state.now.outs ≡ self.now.sub.now.channels }
        requires words { length words.old ≤ 64 }
        ensures answer { result ≡ answer_of (table.read (site_text self.now) state.now entry words.old) }
        ensures words { words.new ≡ words_after (table.read (site_text self.now) state.now entry words.old) words.old }
    {
        if !self.can_read(entry, words) {
            return Err(Errno::Inval);
        }
        words.fill(self.value(state, chan(entry), range(entry)));
        Ok(words.len() as u32)
    }

    // Whether a channel can be read in a range that it has, once at least.
    fn can_read(&self, entry: u32, words: &[u32]) -> bool
        ensures { result ≡ table.can_read self.now.sub.now entry words.now }
    {
        let sub = self.sub;
        !sub.kind.is_unused() && self.has_entry(entry) && !words.is_empty()
    }

    // Writes words to an output, which keeps the last of them.
    fn write(&self, state: &mut SubState, entry: u32, words: &[u32]) -> Result<u32, Errno>
        requires values { length state.old.values ≡ self.now.sub.now.channels }
        requires outs { length state.old.outs ≡ self.now.sub.now.channels }
        requires words { length words.now ≤ 64 }
        ensures answer { result ≡ answer_of (table.write self.now.sub.now state.old entry words.now) }
        ensures state { state.new ≡ state_after (table.write self.now.sub.now state.old entry words.now) state.old }
        ensures words { words_after (table.write self.now.sub.now state.old entry words.now) words.now ≡ words.now }
    {
        if !self.can_write(&state.outs, entry, words) {
            return Err(Errno::Inval);
        }
        state.values[chan(entry) as usize] = words[words.len() - 1];
        Ok(words.len() as u32)
    }

    // Whether an entry's channel is an output that takes the words, one at least.
    fn can_write(&self, outs: &[bool], entry: u32, words: &[u32]) -> bool
        requires { length outs.now ≡ self.now.sub.now.channels }
        ensures { result ≡ table.can_write self.now.sub.now outs.now entry words.now }
    {
        let chan = chan(entry);
        self.has_entry(entry)
            && self.is_out(outs, chan)
            && !words.is_empty()
            && are_codes(self.sub.maxdata_of(chan), words)
    }

    // Puts the bits of the second word to the outputs in the mask, the first, and then reads all
    // lines into the second.
    fn bits(&self, state: &mut SubState, words: &mut [u32]) -> Result<u32, Errno>
        requires values { length state.old.values ≡ self.now.sub.now.channels }
        requires outs { length state.old.outs ≡ self.now.sub.now.channels }
        ensures answer { result ≡ answer_of (table.bits (site_text self.now) state.old words.old) }
        ensures state { state.new ≡ state_after (table.bits (site_text self.now) state.old words.old) state.old }
        ensures words { words.new ≡ words_after (table.bits (site_text self.now) state.old words.old) words.old }
    {
        if !self.can_put(words) {
            return Err(Errno::Inval);
        }
        self.put_bits(state, words[0], words[1]);
        words[1] = self.word(state);
        Ok(2)
    }

    // Whether bits can be put to the subdevice by these words.
    fn can_put(&self, words: &[u32]) -> bool
        ensures { result ≡ table.can_put self.now.sub.now words.now }
    {
        let sub = self.sub;
        sub.kind.is_digital() && words.len() == 2
    }

    // Makes a channel an input or an output.
    fn config(&self, state: &mut SubState, entry: u32, words: &[u32]) -> Result<u32, Errno>
        requires outs { length state.old.outs ≡ self.now.sub.now.channels }
        ensures answer { result ≡ answer_of (table.config self.now.sub.now state.old entry words.now) }
        ensures state { state.new ≡ state_after (table.config self.now.sub.now state.old entry words.now) state.old }
        ensures words { words_after (table.config self.now.sub.now state.old entry words.now) words.now ≡ words.now }
    {
        let [word] = words else {
            return Err(Errno::Inval);
        };
        if !self.can_config(entry, *word) {
            return Err(Errno::Inval);
        }
        state.outs[chan(entry) as usize] = *word == 1;
        Ok(1)
    }

    // Whether a channel can become an input or an output by a word.
    fn can_config(&self, entry: u32, word: u32) -> bool
        ensures { result ≡ table.can_config self.now.sub.now entry word }
    {
        let sub = self.sub;
        sub.kind.is_dio() && self.has_entry(entry) && word <= 1
    }

    // Tells the seconds and the microseconds of the time.
    fn gtod(&self, words: &mut [u32]) -> Result<u32, Errno>
        ensures answer { (state : StateText) → result ≡ answer_of (table.gtod self.now.time state words.old) }
        ensures words { (state : StateText) → words.new ≡ words_after (table.gtod self.now.time state words.old) words.old }
    {
        let time = time_words(self.time);
        if words.len() != 2 {
            return Err(Errno::Inval);
        }
        words.copy_from_slice(&time);
        Ok(2)
    }
}

/// The time of day at a time in nanoseconds: its seconds, and the microseconds since the last of
/// them.
pub fn time_words(time: u64) -> [u32; 2]
    requires { time ≤ 10 ^ 15 }
    ensures { result ≡ table.time_words time }
{
    [
        (time / 1_000_000_000) as u32,
        (time / 1000 % 1_000_000) as u32,
    ]
}

// Whether no word is above a greatest code.
fn are_codes(maxdata: u32, words: &[u32]) -> bool
    ensures { result ≡ table.are_codes maxdata words.now }
{
    words.iter().all(|word| *word <= maxdata)
}
