// Lines whose commands their subdevices accept.
ghost use Rattle.std.specs.Prelude.{◌≡◌, ◌≤◌, ◌<◌, ℕ, length, slice_index, IfOk};
ghost use Rattle.cm_base.specs.ReadStop.{Gives};
ghost use Rattle.cm_base.specs.Reading.{at_line, seen};
ghost use Rattle.cm_base.specs.Words.{limited};
ghost use Rattle.cm_board.specs.Board.{maxdata_of};
ghost use Rattle.cm_cmd.specs.Entry as bits;
ghost use Rattle.cm_test.specs.Questions.{tested};
ghost use Rattle.cm_job.specs.Forms.{asked_cmd};
ghost use Rattle.cm_job.specs.RunPart as spec;
ghost use Rattle.cm_job.specs.Sessions as sessions;

use crate::asked::{AskedLine, Session};
use crate::line::RunLine;
use cm_base::faults::{Fault, ReadStop};
use cm_base::lists::{Nums, Times};
use cm_base::parts::refused;
use cm_base::prover::shows;
use cm_base::words::at_line;
use cm_board::board::{BoardDesc, Sub};
use cm_cmd::command::Cmd;
use cm_cmd::entry::chan;
use cm_test::accepting::{numbered_sub, passed};
use cm_test::test::Accepted;
use std::alloc::Global;

// The most values of a `drive` line.
const MOST_VALUES: usize = 1024;

/// The line that asks for this, where the session takes it. It is Bad where it doesn't, and else as
/// `accept_line` has it.
pub(crate) fn take_line(
    alloc: Global,
    session: Session,
    board: &BoardDesc,
    number: u32,
    asked: AskedLine,
) -> Result<RunLine, ReadStop>
    requires { length (asked_cmd asked).list ≤ 1024 }
    ensures { Gives (λ line. line) result (at_line number (spec.taken_line session board.now asked)) }
{
    if takes(session, board, &asked) {
        accept_line(alloc, board, number, asked)
    } else {
        Err(refused(number, Fault::Bad))
    }
}

// Whether a session takes what a line asks.
fn takes(session: Session, board: &BoardDesc, asked: &AskedLine) -> bool
    ensures { result ≡ sessions.takes session board.now asked.now }
{
    match session {
        Session::Run => true,
        Session::Watch => is_watched(board, asked),
    }
}

// Whether a line is a paced one that takes all samples, in whole scans.
fn is_watched(board: &BoardDesc, asked: &AskedLine) -> bool
    ensures { result ≡ sessions.is_watched board.now asked.now }
{
    match asked {
        AskedLine::Go {
            mode,
            take,
            cmd,
            ..
        } => mode.is_paced() && take.is_none() && holds_scan(board, cmd),
        AskedLine::Drive { .. } => false,
    }
}

// Whether the buffer of a command's subdevice holds a scan.
fn holds_scan(board: &BoardDesc, cmd: &Cmd) -> bool
    ensures { result ≡ sessions.holds_scan board.now cmd.now }
{
    let index = cmd.sub as usize;
    if index >= board.subs.len() {
        return false;
    }
    let sub = &board.subs[index];
    cmd.list.len() <= sub.buffer as usize
}

// The line that asks for this, where the command's subdevice accepts it and has the direction of
// the line's form. It is Bad where it isn't so, and then Limit where a value is above the greatest
// code of its channel or there are more than 1,024.
fn accept_line(
    alloc: Global,
    board: &BoardDesc,
    number: u32,
    asked: AskedLine,
) -> Result<RunLine, ReadStop>
    requires { length (asked_cmd asked).list ≤ 1024 }
    ensures { Gives (λ line. line) result (at_line number (spec.run_line board.now asked)) }
{
    match asked {
        AskedLine::Go {
            mode,
            access,
            t0,
            take,
            cmd,
        } => {
            let cmd = at_line(number, accepted(board, false, cmd))?;
            Ok(RunLine::Go {
                mode,
                access,
                t0,
                take,
                cmd,
            })
        }
        AskedLine::Drive { t0, numbers, cmd } => {
            accept_drive(alloc, board, number, t0, &numbers, cmd)
        }
    }
}

// A `drive` line with these numbers as its values.
fn accept_drive(
    alloc: Global,
    board: &BoardDesc,
    number: u32,
    t0: u64,
    numbers: &Times,
    cmd: Cmd,
) -> Result<RunLine, ReadStop>
    requires { length cmd.list ≤ 1024 }
    ensures { Gives (λ line. line) result (at_line number (spec.drive_of board.now t0 numbers.now cmd)) }
{
    let sub = at_line(number, directed_sub(board, true, cmd.sub))?;
    let cmd = at_line(number, passed(sub, cmd))?;
    let values = values_of(alloc, number, sub, &cmd, numbers.as_slice())?;
    Ok(RunLine::Drive { t0, values, cmd })
}

/// A command that its subdevice accepts, which is an output or, where `out` is false, an input. It is
/// Bad where there is no such subdevice, and where the command doesn't pass its test.
pub fn accepted(board: &BoardDesc, out: bool, cmd: Cmd) -> Result<Accepted, Fault>
    requires { length cmd.list ≤ 1024 }
    ensures { result ≡ spec.accepted board.now out cmd }
{
    let sub = directed_sub(board, out, cmd.sub)?;
    passed(sub, cmd)
}

// The subdevice with this number, where there is one with the direction.
fn directed_sub(board: &BoardDesc, out: bool, number: u32) -> Result<&Sub, Fault>
    ensures { seen (λ sub. sub.now) result ≡ spec.directed_sub board.now out number }
{
    let sub = numbered_sub(board, number)?;
    if sub.kind.is_output() == out {
        Ok(sub)
    } else {
        Err(Fault::Bad)
    }
}

// The values that numbers give, each a code of its channel.
fn values_of(
    alloc: Global,
    line: u32,
    sub: &Sub,
    cmd: &Accepted,
    numbers: &[u64],
) -> Result<Nums, ReadStop>
    requires { (tested sub.now cmd.now).0 ≡ 0 }
    ensures { Gives (λ values. values) result (at_line line (spec.values_of sub.now cmd.now numbers.now)) }
{
    if numbers.len() > MOST_VALUES {
        return Err(refused(line, Fault::Limit));
    }
    // This read shows what holds of each subdevice, such as that its channels have codes.
    shows(&sub.channels);
    let cmd = cmd.cmd();
    let values = codes_of(alloc, line, sub, &cmd.list, numbers)?;
    Ok(Nums::new(values))
}

// Numbers as codes, each of the channel of its entry.
fn codes_of(
    alloc: Global,
    line: u32,
    sub: &Sub,
    list: &[u32],
    numbers: &[u64],
) -> Result<Vec<u32>, ReadStop>
    requires some { 1 ≤ length list.now }
    requires channels { (i : ℕ) → i < length list.now → bits.chan (slice_index list.now i) < sub.now.channels }
    ensures { Gives (λ values. values.items) result (at_line line (limited (spec.are_codes sub.now list.now 0 numbers.now) numbers.now)) }
{
    let mut values = Vec::new(alloc);
    for number in numbers {
        let entry = list[values.len() % list.len()];
        let value = at_line(line, code_in(sub, chan(entry), *number))?;
        values.push(value)?;
    }
    Ok(values)
}

// A number that is a code of a channel.
fn code_in(sub: &Sub, channel: u32, number: u64) -> Result<u32, Fault>
    requires { channel < sub.now.channels }
    ensures { result ≡ spec.code_in sub.now channel number }
{
    if number <= u64::from(sub.maxdata_of(channel)) {
        Ok(number as u32)
    } else {
        Err(Fault::Limit)
    }
}
