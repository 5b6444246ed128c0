// What a line of a session does.
ghost use Rattle.std.specs.Prelude.{◌≡◌, ◌≤◌, ◌^◌, List, true, OnOk};
ghost use Rattle.std.specs.List.{All};
ghost use Rattle.cm_insn.specs.Insn.{time_words};
ghost use Rattle.cm_replay.specs.Answers.{Data, Fine};
ghost use Rattle.cm_replay.specs.Forms.{form, is_of_command, named_sub};
ghost use Rattle.cm_replay.specs.Replies.{CanAct, CanStep, HasCome, IsReached, IsWhole, Leads, Replies, Steps, checked, here_at, is_insn, names_sub};
ghost use Rattle.cm_replay.specs.Session as session;
ghost use Rattle.cm_replay.specs.State.{Device};
ghost use Rattle.cm_session.specs.Limits.{HasLimits};
ghost use Rattle.cm_sub.specs.Checks.{first_refusal};
ghost use Rattle.cm_sub.specs.Files.{close_checks, open_checks, opened};

use crate::at::At;
use crate::calling::{call, trigger};
use crate::closing::close;
use crate::instructing::{configure, put_bits, read_channel, time_of_day, write_channel};
use crate::locking::{lock, unlock};
use crate::passing::bring_all;
use crate::reading::{cancel, contents, look, map, read, release};
use crate::seat::Seat;
use crate::text::put_fine;
use crate::trying::BoxedAccepted;
use crate::writing::{fill, mark, write};
use cm_base::prover::shows;
use cm_base::transfer::NoMemory;
use cm_session::op::{Op, SessionLine};
use cm_signal::setting::Setting;
use cm_sub::errno::{Errno, put_refused};
use cm_sub::files::Files;
use std::alloc::Global;

// The lines that only a subdevice with commands has.
fn is_of_command(op: &Op) -> bool
    ensures { result ≡ is_of_command op.now }
{
    !matches!(
        op,
        Op::Lock { .. }
            | Op::Unlock { .. }
            | Op::InsnRead { .. }
            | Op::InsnWrite { .. }
            | Op::InsnBits { .. }
            | Op::InsnConfig { .. }
    )
}

// Does an instruction on its subdevice. No other line comes here.
fn instruct(
    at: &At<'_>,
    op: &Op,
    files: &Files,
    seat: &mut Seat<'_>,
    text: &mut Vec<u8>,
) -> Result<(), NoMemory>
    requires reached { IsReached at.now files.now }
    requires limits { HasLimits op.now }
    requires time { at.now.time ≤ at.now.signals.now.horizon }
    requires whole { IsWhole at.now.sub.now seat.old }
    requires insn { is_insn op.now ≡ true }
    ensures { OnOk result (Replies (checked (form op.now (here_at at.now files.now seat.old)) (here_at at.now files.now seat.old)) files.now seat.new text.old.items text.new.items) }
{
    match op {
        Op::InsnRead { entry, n, .. } => read_channel(at, *entry, *n, files, seat, text),
        Op::InsnWrite { entry, values, .. } => {
            write_channel(at, *entry, values.as_slice(), files, seat, text)
        }
        Op::InsnBits { mask, bits, .. } => put_bits(at, *mask, *bits, files, seat, text),
        Op::InsnConfig { entry, value, .. } => configure(at, *entry, *value, files, seat, text),
        _ => unreachable!(),
    }
}

// What a line does with its subdevice, which can do what the line asks.
fn run<'a>(
    alloc: Global,
    at: &At<'a>,
    op: &Op,
    tried: &'a Option<BoxedAccepted>,
    files: &mut Files,
    seat: &mut Seat<'a>,
    text: &mut Vec<u8>,
) -> Result<(), NoMemory>
    requires can { CanAct at.now op.now tried.now files.old seat.old }
    requires names { names_sub op.now ≡ true }
    ensures { OnOk result (Replies (checked (form op.now (here_at at.now files.old seat.old)) (here_at at.now files.old seat.old)) files.new seat.new text.old.items text.new.items) }
{
    match op {
        Op::Lock { .. } => lock(at, files, text),
        Op::Unlock { .. } => unlock(at, files, text),
        Op::Cmd { cmd } => call(alloc, at, cmd.cmd(), tried, files, seat, text),
        Op::Cancel { .. } => cancel(at, files, seat, text),
        Op::Read { n, .. } => read(at, *n, files, seat, text),
        Op::Map { n, .. } => map(at, *n, files, seat, text),
        Op::Look { i, .. } => look(at, *i, files, seat, text),
        Op::Release { k, .. } => release(at, *k, files, seat, text),
        Op::Contents { .. } => contents(at, files, seat, text),
        Op::Write { values, .. } => write(at, values.as_slice(), files, seat, text),
        Op::Fill { values, .. } => fill(at, values.as_slice(), files, seat, text),
        Op::Mark { k, .. } => mark(at, *k, files, seat, text),
        Op::InsnIntTrig { num, .. } => trigger(alloc, at, *num, files, seat, text),
        _ => instruct(at, op, files, seat, text),
    }
}

// What a line does that names a subdevice. Refused as `At::reach` is.
fn act_on<'a>(
    alloc: Global,
    setting: &Setting<'a>,
    line: &SessionLine,
    tried: &'a Option<BoxedAccepted>,
    files: &mut Files,
    seats: &mut Vec<Seat<'a>>,
    text: &mut Vec<u8>,
) -> Result<(), NoMemory>
    requires can { CanStep setting.now line.now tried.now (record { files = files.old; devices = seats.old.items }) }
    requires names { names_sub line.now.op ≡ true }
    ensures { OnOk result (Leads (session.act_on line.now.op (session.here setting.now line.now (record { files = files.old; devices = seats.old.items })) (record { files = files.old; devices = seats.old.items })) (record { files = files.new; devices = seats.new.items }) text.old.items text.new.items) }
{
    let index = named_sub(&line.op);
    let commands = is_of_command(&line.op);
    let at = match At::reach(setting, files, line.time, line.file, index, commands) {
        Err(error) => return put_refused(text, error),
        Ok(at) => at,
    };
    run(
        alloc,
        &at,
        &line.op,
        tried,
        files,
        &mut seats[index as usize],
        text,
    )
}

// The subdevice that a line names.
fn named_sub(op: &Op) -> u32
    ensures { result ≡ named_sub op.now }
{
    match op {
        Op::OpenFile | Op::CloseFile => 0,
        Op::Cmd { cmd } => {
            let cmd = cmd.cmd();
            cmd.sub
        }
        Op::Lock { sub } => *sub,
        Op::Unlock { sub } => *sub,
        Op::Cancel { sub } => *sub,
        Op::Read { sub, .. } => *sub,
        Op::Map { sub, .. } => *sub,
        Op::Look { sub, .. } => *sub,
        Op::Release { sub, .. } => *sub,
        Op::Contents { sub } => *sub,
        Op::Write { sub, .. } => *sub,
        Op::Fill { sub, .. } => *sub,
        Op::Mark { sub, .. } => *sub,
        Op::InsnRead { sub, .. } => *sub,
        Op::InsnWrite { sub, .. } => *sub,
        Op::InsnBits { sub, .. } => *sub,
        Op::InsnConfig { sub, .. } => *sub,
        Op::InsnGtod { sub } => *sub,
        Op::InsnIntTrig { sub, .. } => *sub,
    }
}

// Opens a file. Refused as `Files::open_file` is.
fn open(file: u32, files: &mut Files, text: &mut Vec<u8>) -> Result<(), NoMemory>
    ensures { (devices : List Device) → OnOk result (Leads (session.unless_refused (first_refusal (open_checks file files.old)) (record { files = files.old; devices = devices }) (record { answer = Fine; state = record { files = opened file files.old; devices = devices } })) (record { files = files.new; devices = devices }) text.old.items text.new.items) }
{
    match files.open_file(file) {
        Err(error) => put_refused(text, error),
        Ok(()) => put_fine(text),
    }
}

// Answers the time of day to an open file. Refused with Inval (`EINVAL`) where it isn't open.
fn answer_time(time: u64, file: u32, files: &Files, text: &mut Vec<u8>) -> Result<(), NoMemory>
    requires { time ≤ 10 ^ 15 }
    ensures { (devices : List Device) → OnOk result (Leads (session.unless_refused (first_refusal (close_checks file files.now)) (record { files = files.now; devices = devices }) (record { answer = Data 2 (time_words time); state = record { files = files.now; devices = devices } })) (record { files = files.now; devices = devices }) text.old.items text.new.items) }
{
    if files.is_open(file) {
        time_of_day(time, text)
    } else {
        put_refused(text, Errno::Inval)
    }
}

// What a line does once all commands are brought to its time.
fn act<'a>(
    alloc: Global,
    setting: &Setting<'a>,
    line: &SessionLine,
    tried: &'a Option<BoxedAccepted>,
    files: &mut Files,
    seats: &mut Vec<Seat<'a>>,
    text: &mut Vec<u8>,
) -> Result<(), NoMemory>
    requires { CanStep setting.now line.now tried.now (record { files = files.old; devices = seats.old.items }) }
    ensures { OnOk result (Leads (session.act setting.now line.now line.now.op (record { files = files.old; devices = seats.old.items })) (record { files = files.new; devices = seats.new.items }) text.old.items text.new.items) }
{
    match &line.op {
        Op::OpenFile => open(line.file, files, text),
        Op::CloseFile => close(line.file, files, seats, text),
        Op::InsnGtod { .. } => {
            let signals = setting.signals;
            // This read shows that the horizon is within its limit.
            shows(&signals.horizon);
            answer_time(line.time, line.file, files, text)
        }
        _ => act_on(alloc, setting, line, tried, files, seats, text),
    }
}

/// Brings all commands to a line's time, and does what the line asks.
pub fn step<'a>(
    alloc: Global,
    setting: &Setting<'a>,
    line: &SessionLine,
    tried: &'a Option<BoxedAccepted>,
    files: &mut Files,
    seats: &mut Vec<Seat<'a>>,
    text: &mut Vec<u8>,
) -> Result<(), NoMemory>
    requires come { All (HasCome line.now.time) seats.old.items }
    requires can { CanStep setting.now line.now tried.now (session.brought_all line.now.time (record { files = files.old; devices = seats.old.items })) }
    ensures { OnOk result (Steps (session.step setting.now line.now (record { files = files.old; devices = seats.old.items })) (record { files = files.new; devices = seats.new.items }) text.old.items text.new.items) }
{
    bring_all(seats, line.time, text)?;
    act(alloc, setting, line, tried, files, seats, text)
}
