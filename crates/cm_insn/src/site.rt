// A subdevice with its signals, as an instruction finds it.
ghost use Rattle.std.specs.Prelude.{◌≤◌, ◌^◌};

use cm_board::board::{Kind, Sub};
use cm_cmd::entry::{chan, range};
use cm_sample::sample::code_of;
use cm_signal::signals::{Signals, level};
use cm_sub::state::SubState;

/// A subdevice at a place of its board, with its signals, at a time in nanoseconds.
#[derive(Clone, Copy)]
pub(crate) struct Site<'a> {
    pub sub: &'a Sub,
    pub index: u32,
    pub signals: &'a Signals,
    pub time: u64,
    ghost in_time: { time ≤ 10 ^ 15 },
}

impl Site<'_> {
    ghost use Rattle.std.specs.Prelude.{◌≡◌, ◌<◌, length};
    ghost use Rattle.cm_board.specs.Board.{range_count};
    ghost use Rattle.cm_insn.specs.Site as spec;
    ghost use Rattle.cm_insn.specs.SiteView.{site_text};

    // Whether an entry names a channel that the subdevice has, and one of its ranges.
    pub(crate) fn has_entry(&self, entry: u32) -> bool
        ensures { result ≡ spec.has_entry self.now.sub.now entry }
    {
        let sub = self.sub;
        let chan = chan(entry);
        chan < sub.channels && range(entry) < sub.range_count(chan)
    }

    // Whether a channel is an output.
    pub(crate) fn is_out(&self, outs: &[bool], chan: u32) -> bool
        requires { chan < length outs.now }
        ensures { result ≡ spec.is_out self.now.sub.now outs.now chan }
    {
        let sub = self.sub;
        match sub.kind {
            Kind::Ao | Kind::Do => true,
            Kind::Dio => outs[chan as usize],
            Kind::Unused | Kind::Ai | Kind::Di => false,
        }
    }

    // The code of the level at a channel, in one of its ranges.
    fn input(&self, chan: u32, range: u32) -> u32
        requires chan { chan < self.now.sub.now.channels }
        requires range { range < range_count self.now.sub.now chan }
        ensures { result ≡ spec.input_at (site_text self.now) chan range }
    {
        let level = level(self.signals, self.index, chan, self.time);
        code_of(
            &self.sub.range_of(chan, range),
            self.sub.maxdata_of(chan),
            level,
        )
    }

    // The value of a channel: what an output keeps, or the code of an input in a range.
    pub(crate) fn value(&self, state: &SubState, chan: u32, range: u32) -> u32
        requires chan { chan < self.now.sub.now.channels }
        requires range { range < range_count self.now.sub.now chan }
        requires values { length state.now.values ≡ self.now.sub.now.channels }
        requires outs { length state.now.outs ≡ self.now.sub.now.channels }
        ensures { result ≡ spec.value_at (site_text self.now) state.now chan range }
    {
        if self.is_out(&state.outs, chan) {
            state.values[chan as usize]
        } else {
            self.input(chan, range)
        }
    }
}
