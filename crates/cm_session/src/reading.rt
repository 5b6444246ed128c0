// The session part of a text, read into lines.
ghost use Rattle.std.specs.Prelude.{◌≡◌, ◌≤◌, drop, map, IfOk};
ghost use Rattle.cm_base.specs.LineView.{line_view};
ghost use Rattle.cm_base.specs.ReadStop.{Gives};
ghost use Rattle.cm_base.specs.Reading.{at_line};
ghost use Rattle.cm_session.specs.Limits.{InOrder, IsLimited};
ghost use Rattle.cm_session.specs.SessionPart as spec;
ghost use Rattle.cm_session.specs.SessionPart.{session_of};
ghost use Rattle.cm_signal.specs.Bounds.{bounds_of};

use crate::forms::{Start, command_words, file_words, number_words, sub_words, values_words};
use crate::instructions::instruction;
use crate::op::{Op, SessionLine};
use cm_base::faults::{Fault, ReadStop};
use cm_base::lines::{Line, Lines};
use cm_base::parts::refused;
use cm_base::words::at_line;
use cm_board::board::BoardDesc;
use cm_signal::bounds::Bounds;
use cm_signal::signals::Signals;
use std::alloc::Global;

// The most samples that a line can read or map.
const MOST_SAMPLES: u32 = 65_536;

/// Reads the lines of a session from the index `at` to the end of the text. With `only_insn` it may
/// only have lines of files, locks and instructions. It refuses the first line that fails: one that
/// isn't of its form, one above the horizon or below the line before it, and one with a number
/// outside its limits.
pub fn read_session(
    alloc: Global,
    board: &BoardDesc,
    signals: &Signals,
    lines: &Lines<'_>,
    at: usize,
    only_insn: bool,
) -> Result<Vec<SessionLine>, ReadStop>
    ensures value { Gives (λ lines. lines.items) result (session_of only_insn (bounds_of board.now signals.now) (drop at lines.now.list)) }
    ensures order { IfOk result (λ lines. InOrder signals.now.horizon 0 lines.items) }
{
    let bounds = Bounds::of(board, signals);
    let mut lines = lines.from(at);
    let mut line = Line::empty(alloc);
    let mut all = Vec::new(alloc);
    let mut latest = 0;
    while lines.next(alloc, &mut line)? {
        let next = match read_line(alloc, bounds, latest, only_insn, &line) {
            Ok(next) => next,
            Err(stop) => return Err(stop),
        };
        latest = next.time;
        all.push(next)?;
    }
    Ok(all)
}

/// Reads one line of a session, after a line of the time `before` and within these bounds. It refuses a
/// line as `read_session` does.
pub fn read_line(
    alloc: Global,
    bounds: Bounds,
    before: u64,
    only_insn: bool,
    line: &Line<'_>,
) -> Result<SessionLine, ReadStop>
    ensures value { Gives (λ line. line) result (at_line line.now.number (spec.line_after only_insn bounds before (line_view line.now))) }
    ensures after { IfOk result (λ line. before ≤ line.time) }
    ensures limits { IfOk result (IsLimited bounds.horizon) }
{
    if line.bad {
        return Err(refused(line.number, Fault::BadLine));
    }
    let next = read_words(alloc, bounds, only_insn, line)?;
    if before <= next.time {
        Ok(next)
    } else {
        Err(refused(line.number, Fault::Bad))
    }
}

// What the words of a line ask.
fn read_words(
    alloc: Global,
    bounds: Bounds,
    only_insn: bool,
    line: &Line<'_>,
) -> Result<SessionLine, ReadStop>
    ensures value { Gives (λ line. line) result (at_line line.now.number (spec.line_words only_insn bounds (line_view line.now).words)) }
    ensures limits { IfOk result (IsLimited bounds.horizon) }
{
    let number = line.number;
    match line.words.as_slice() {
        [time, key, words @ ..] => {
            let start = Start {
                number,
                bounds,
                time,
            };
            keyed_line(alloc, &start, only_insn, line, key, words)
        }
        _ => Err(refused(number, Fault::BadLine)),
    }
}

// What a line asks, by its key and the words after it.
fn keyed_line(
    alloc: Global,
    start: &Start<'_>,
    only_insn: bool,
    line: &Line<'_>,
    key: &[u8],
    words: &[&[u8]],
) -> Result<SessionLine, ReadStop>
    requires number { start.now.number ≡ line.now.number }
    requires words { drop 2 (line_view line.now).words ≡ map (λ word. word.now) words.now }
    ensures value { Gives (λ line. line) result (at_line start.now.number (spec.keyed (spec.lines_by only_insn) key.now start.now.bounds start.now.time.now (map (λ word. word.now) words.now))) }
    ensures limits { IfOk result (IsLimited start.now.bounds.horizon) }
{
    let number = start.number;
    if key == b"open".as_slice() {
        let head = at_line(number, file_words(start, words))?;
        Ok(head.line(Op::OpenFile))
    } else if key == b"close".as_slice() {
        let head = at_line(number, file_words(start, words))?;
        Ok(head.line(Op::CloseFile))
    } else if key == b"lock".as_slice() {
        let (head, sub) = at_line(number, sub_words(start, words))?;
        Ok(head.line(Op::Lock { sub }))
    } else if key == b"unlock".as_slice() {
        let (head, sub) = at_line(number, sub_words(start, words))?;
        Ok(head.line(Op::Unlock { sub }))
    } else if key == b"insn".as_slice() {
        instruction(alloc, start, words)
    } else if only_insn {
        Err(refused(number, Fault::Unknown))
    } else {
        command_line(alloc, start, line, key, words)
    }
}

// What a line of a command asks, by its key and the words after it.
fn command_line(
    alloc: Global,
    start: &Start<'_>,
    line: &Line<'_>,
    key: &[u8],
    words: &[&[u8]],
) -> Result<SessionLine, ReadStop>
    requires number { start.now.number ≡ line.now.number }
    requires words { drop 2 (line_view line.now).words ≡ map (λ word. word.now) words.now }
    ensures value { Gives (λ line. line) result (at_line start.now.number (spec.keyed spec.command_lines key.now start.now.bounds start.now.time.now (map (λ word. word.now) words.now))) }
    ensures limits { IfOk result (IsLimited start.now.bounds.horizon) }
{
    let number = start.number;
    if key == b"cmd".as_slice() {
        let (head, cmd) = command_words(alloc, start, line, words)?;
        Ok(head.line(Op::Cmd { cmd }))
    } else if key == b"cancel".as_slice() {
        let (head, sub) = at_line(number, sub_words(start, words))?;
        Ok(head.line(Op::Cancel { sub }))
    } else if key == b"contents".as_slice() {
        let (head, sub) = at_line(number, sub_words(start, words))?;
        Ok(head.line(Op::Contents { sub }))
    } else if key == b"write".as_slice() {
        let (head, sub, values) = values_words(alloc, start, words)?;
        Ok(head.line(Op::Write { sub, values }))
    } else if key == b"fill".as_slice() {
        let (head, sub, values) = values_words(alloc, start, words)?;
        Ok(head.line(Op::Fill { sub, values }))
    } else {
        at_line(number, number_line(start, key, words))
    }
}

// What a line with a number after its subdevice asks.
fn number_line(start: &Start<'_>, key: &[u8], words: &[&[u8]]) -> Result<SessionLine, Fault>
    ensures value { result ≡ spec.keyed spec.number_lines key.now start.now.bounds start.now.time.now (map (λ word. word.now) words.now) }
    ensures limits { IfOk result (IsLimited start.now.bounds.horizon) }
{
    if key == b"read".as_slice() {
        let (head, sub, n) = number_words(start, words, MOST_SAMPLES)?;
        Ok(head.line(Op::Read { sub, n }))
    } else if key == b"map".as_slice() {
        let (head, sub, n) = number_words(start, words, MOST_SAMPLES)?;
        Ok(head.line(Op::Map { sub, n }))
    } else if key == b"look".as_slice() {
        let (head, sub, i) = number_words(start, words, u32::MAX)?;
        Ok(head.line(Op::Look { sub, i }))
    } else if key == b"release".as_slice() {
        let (head, sub, k) = number_words(start, words, u32::MAX)?;
        Ok(head.line(Op::Release { sub, k }))
    } else if key == b"mark".as_slice() {
        let (head, sub, k) = number_words(start, words, u32::MAX)?;
        Ok(head.line(Op::Mark { sub, k }))
    } else {
        Err(Fault::Unknown)
    }
}
