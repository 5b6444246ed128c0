// The lines of instructions.
ghost use Rattle.std.specs.Prelude.{◌≡◌, ◌≤◌, ◌^◌, ◌++◌, length, OnOk};
ghost use Rattle.cm_insn.specs.Insn.{time_words};
ghost use Rattle.cm_replay.specs.Answers.{Data};
ghost use Rattle.cm_replay.specs.Forms.{form};
ghost use Rattle.cm_replay.specs.Replies.{IsReached, IsWhole, Replies, checked, here_at, insn_form};
ghost use Rattle.cm_replay.specs.Texts.{answer_text};
ghost use Rattle.cm_session.specs.declared.op.Op.TheVariants as ops;

use crate::at::At;
use crate::seat::Seat;
use crate::text::put_data;
use cm_base::transfer::NoMemory;
use cm_insn::insn::{InsnCode, Instr, insn, time_words};
use cm_running::text::put_count;
use cm_sub::errno::put_refused;
use cm_sub::files::Files;

// The most data words of an instruction.
const MOST_WORDS: usize = 64;

/// Does an instruction on its data words, and answers how many they are, or these words where they
/// are shown. Refused as `Files::may_use` is, and with Inval (`EINVAL`) where the subdevice doesn't
/// take the instruction.
fn instruct(
    at: &At<'_>,
    what: &Instr,
    words: &mut [u32],
    shown: bool,
    files: &Files,
    seat: &mut Seat<'_>,
    text: &mut Vec<u8>,
) -> Result<(), NoMemory>
    requires reached { IsReached at.now files.now }
    requires few { length words.old ≤ 64 }
    requires whole { IsWhole at.now.sub.now seat.old }
    requires time { at.now.time ≤ at.now.signals.now.horizon }
    ensures { OnOk result (Replies (checked (insn_form shown what.now words.old) (here_at at.now files.now seat.old)) files.now seat.new text.old.items text.new.items) }
{
    if let Err(error) = files.may_use(at.file, at.index) {
        return put_refused(text, error);
    }
    match insn(
        at.sub,
        at.index,
        at.signals,
        &mut seat.state,
        what,
        words,
        at.time,
    ) {
        Err(error) => put_refused(text, error),
        Ok(count) if shown => put_data(text, count, words),
        Ok(count) => put_count(text, u64::from(count)),
    }
}

/// `insn read`: a channel, `n` times.
pub(crate) fn read_channel(
    at: &At<'_>,
    entry: u32,
    n: u32,
    files: &Files,
    seat: &mut Seat<'_>,
    text: &mut Vec<u8>,
) -> Result<(), NoMemory>
    requires reached { IsReached at.now files.now }
    requires few { n ≤ 64 }
    requires whole { IsWhole at.now.sub.now seat.old }
    requires time { at.now.time ≤ at.now.signals.now.horizon }
    ensures { OnOk result (Replies (checked (form (ops.InsnRead at.now.index entry n) (here_at at.now files.now seat.old)) (here_at at.now files.now seat.old)) files.now seat.new text.old.items text.new.items) }
{
    let what = Instr {
        code: InsnCode::Read,
        entry,
    };
    let mut words = [0; MOST_WORDS];
    instruct(at, &what, &mut words[..n as usize], true, files, seat, text)
}

/// `insn write`: these values, one after another.
pub(crate) fn write_channel(
    at: &At<'_>,
    entry: u32,
    values: &[u32],
    files: &Files,
    seat: &mut Seat<'_>,
    text: &mut Vec<u8>,
) -> Result<(), NoMemory>
    requires reached { IsReached at.now files.now }
    requires few { length values.now ≤ 64 }
    requires whole { IsWhole at.now.sub.now seat.old }
    requires time { at.now.time ≤ at.now.signals.now.horizon }
    ensures { OnOk result (Replies (checked (form (ops.InsnWrite at.now.index entry values.now) (here_at at.now files.now seat.old)) (here_at at.now files.now seat.old)) files.now seat.new text.old.items text.new.items) }
{
    let what = Instr {
        code: InsnCode::Write,
        entry,
    };
    let mut words = [0; MOST_WORDS];
    let words = &mut words[..values.len()];
    words.copy_from_slice(values);
    instruct(at, &what, words, false, files, seat, text)
}

/// `insn bits`: the bits in the mask to the outputs, and then all lines.
pub(crate) fn put_bits(
    at: &At<'_>,
    mask: u32,
    bits: u32,
    files: &Files,
    seat: &mut Seat<'_>,
    text: &mut Vec<u8>,
) -> Result<(), NoMemory>
    requires reached { IsReached at.now files.now }
    requires whole { IsWhole at.now.sub.now seat.old }
    requires time { at.now.time ≤ at.now.signals.now.horizon }
    ensures { OnOk result (Replies (checked (form (ops.InsnBits at.now.index mask bits) (here_at at.now files.now seat.old)) (here_at at.now files.now seat.old)) files.now seat.new text.old.items text.new.items) }
{
    let what = Instr {
        code: InsnCode::Bits,
        entry: 0,
    };
    instruct(at, &what, &mut [mask, bits], true, files, seat, text)
}

/// `insn config`: the channel becomes an input or an output.
pub(crate) fn configure(
    at: &At<'_>,
    entry: u32,
    value: u32,
    files: &Files,
    seat: &mut Seat<'_>,
    text: &mut Vec<u8>,
) -> Result<(), NoMemory>
    requires reached { IsReached at.now files.now }
    requires whole { IsWhole at.now.sub.now seat.old }
    requires time { at.now.time ≤ at.now.signals.now.horizon }
    ensures { OnOk result (Replies (checked (form (ops.InsnConfig at.now.index entry value) (here_at at.now files.now seat.old)) (here_at at.now files.now seat.old)) files.now seat.new text.old.items text.new.items) }
{
    let what = Instr {
        code: InsnCode::Config,
        entry,
    };
    instruct(at, &what, &mut [value], false, files, seat, text)
}

/// `insn gtod`: the seconds and the microseconds of a time.
pub(crate) fn time_of_day(time: u64, text: &mut Vec<u8>) -> Result<(), NoMemory>
    requires { time ≤ 10 ^ 15 }
    ensures { OnOk result (text.new.items ≡ text.old.items ++ answer_text (Data 2 (time_words time))) }
{
    put_data(text, 2, &time_words(time))
}
