// A line of a dialogue, read.
ghost use Rattle.std.specs.Prelude.{◌≡◌, ◌≤◌, drop, map, IfOk};
ghost use Rattle.cm_base.specs.LineView.{line_view};
ghost use Rattle.cm_base.specs.ReadStop.{Gives};
ghost use Rattle.cm_base.specs.Reading.{at_line};
ghost use Rattle.cm_base.specs.Words.{listed};
ghost use Rattle.cm_cmd.specs.PrintedReads.{HasText};
ghost use Rattle.cm_dialogue.specs.Lines as spec;
ghost use Rattle.cm_dialogue.specs.Reading.{IsFit};

use crate::asked::{Asked, Fetch, Question};
use crate::dialogue_line::{DialogueLine, Untimed};
use cm_base::faults::{Fault, ReadStop};
use cm_base::lines::Line;
use cm_base::parts::{begins, refused};
use cm_base::words::{at_line, four, none, number_in};
use cm_board::versions::most_entries;
use cm_cmd::reading::read_cmd_up_to;
use cm_session::forms::{LineHead, Start, number_words, place, sub_words};
use cm_session::op::BoxedCmd;
use cm_session::reading::read_line;
use cm_signal::bounds::Bounds;
use std::alloc::Global;

// The most samples that a question takes.
const MOST_TAKEN: u32 = 65_536;

/// What a line says, after a line of the time `before` and within these bounds: a line of a session, or
/// a question. It refuses a line as `read_session` does.
pub fn read_said(
    alloc: Global,
    bounds: Bounds,
    before: u64,
    line: &Line<'_>,
) -> Result<DialogueLine, ReadStop>
    ensures value { Gives (λ said. said) result (at_line line.now.number (spec.said_by bounds before (line_view line.now))) }
    ensures fit { IfOk result (IsFit bounds.horizon before) }
{
    if line.bad {
        return Err(refused(line.number, Fault::BadLine));
    }
    if begins(b"describe", line) {
        at_line(line.number, none(&line.words[1..]))?;
        Ok(DialogueLine::Untimed(Untimed::Describe))
    } else if begins(b"subdevices", line) {
        at_line(line.number, none(&line.words[1..]))?;
        Ok(DialogueLine::Untimed(Untimed::Subdevices))
    } else if begins(b"claims", line) {
        at_line(line.number, none(&line.words[1..]))?;
        Ok(DialogueLine::Untimed(Untimed::Claims))
    } else if begins(b"test", line) {
        let cmd = read_tested(alloc, bounds, line)?;
        Ok(DialogueLine::Untimed(Untimed::Test(cmd)))
    } else if begins(b"cmdtest", line) {
        let cmd = read_tested(alloc, bounds, line)?;
        Ok(DialogueLine::Untimed(Untimed::CmdTest(cmd)))
    } else {
        read_words(alloc, bounds, before, line)
    }
}

// The command that is to be tested: the words after the first one.
fn read_tested(alloc: Global, bounds: Bounds, line: &Line<'_>) -> Result<BoxedCmd, ReadStop>
    ensures value { Gives (λ cmd. cmd) result (at_line line.now.number (spec.tested_command bounds (line_view line.now))) }
    ensures text { IfOk result (HasText 1024) }
{
    let cmd = read_cmd_up_to(alloc, line, 1, most_entries(bounds.version))?;
    Ok(BoxedCmd::new(alloc, cmd)?)
}

// What a line says that has a time and a key.
fn read_words(
    alloc: Global,
    bounds: Bounds,
    before: u64,
    line: &Line<'_>,
) -> Result<DialogueLine, ReadStop>
    ensures value { Gives (λ said. said) result (at_line line.now.number (spec.worded bounds before (line_view line.now) (line_view line.now).words)) }
    ensures fit { IfOk result (IsFit bounds.horizon before) }
{
    let number = line.number;
    match line.words.as_slice() {
        [time, key, words @ ..] => {
            let start = Start {
                number,
                bounds,
                time,
            };
            read_timed(alloc, before, &start, line, key, words)
        }
        _ => Err(refused(number, Fault::BadLine)),
    }
}

// What a line says, by its key and the words after it.
fn read_timed(
    alloc: Global,
    before: u64,
    start: &Start<'_>,
    line: &Line<'_>,
    key: &[u8],
    words: &[&[u8]],
) -> Result<DialogueLine, ReadStop>
    requires number { start.now.number ≡ line.now.number }
    ensures value { Gives (λ said. said) result (at_line start.now.number (spec.timed start.now.bounds before (line_view line.now) start.now.time.now (map (λ word. word.now) words.now) (listed spec.questions key.now))) }
    ensures fit { IfOk result (IsFit start.now.bounds.horizon before) }
{
    if key == b"await".as_slice() {
        let (head, sub, n) = at_line(start.number, number_words(start, words, u32::MAX))?;
        at_line(
            start.number,
            asked_after(before, head, sub, Question::Await { n }),
        )
    } else if key == b"info".as_slice() {
        let (head, sub) = at_line(start.number, sub_words(start, words))?;
        at_line(start.number, asked_after(before, head, sub, Question::Info))
    } else if key == b"codes".as_slice() {
        let (head, sub, n) = at_line(start.number, number_words(start, words, MOST_TAKEN))?;
        at_line(
            start.number,
            asked_after(before, head, sub, Question::Codes { n }),
        )
    } else if key == b"peek".as_slice() {
        let (head, sub, from, n) = at_line(start.number, ranged_words(start, words))?;
        at_line(
            start.number,
            asked_after(before, head, sub, Question::Peek { from, n }),
        )
    } else if key == b"fetch".as_slice() {
        let (head, sub, wanted, n) = at_line(start.number, ranged_words(start, words))?;
        at_line(start.number, fetch_after(before, head, sub, wanted, n))
    } else {
        read_next(alloc, start.bounds, before, line)
    }
}

// The file, the subdevice, and the two numbers of `T KEY F SUB I N`.
fn ranged_words(start: &Start<'_>, words: &[&[u8]]) -> Result<(LineHead, u32, u32, u32), Fault>
    ensures value { result ≡ spec.ranged_words start.now.bounds start.now.time.now (map (λ word. word.now) words.now) }
    ensures within { IfOk result (λ w. w.0.time ≤ start.now.bounds.horizon) }
    ensures few { IfOk result (λ w. w.3 ≤ 65536) }
{
    let (file, sub, from, n) = four(words)?;
    let (head, sub) = place(start, file, sub)?;
    let from = number_in(from, 0, u32::MAX)?;
    let n = number_in(n, 0, MOST_TAKEN)?;
    Ok((head, sub, from, n))
}

// A line of the session.
fn read_next(
    alloc: Global,
    bounds: Bounds,
    before: u64,
    line: &Line<'_>,
) -> Result<DialogueLine, ReadStop>
    ensures value { Gives (λ said. said) result (at_line line.now.number (spec.next_line bounds before (line_view line.now))) }
    ensures fit { IfOk result (IsFit bounds.horizon before) }
{
    let next = read_line(alloc, bounds, before, false, line)?;
    Ok(DialogueLine::Session(next))
}

// A question after a line of the time `before`.
fn asked_after(
    before: u64,
    head: LineHead,
    sub: u32,
    question: Question,
) -> Result<DialogueLine, Fault>
    ensures value { result ≡ spec.asked_after before (spec.asked_by head sub question) }
{
    if before <= head.time {
        Ok(DialogueLine::Question(Asked {
            time: head.time,
            file: head.file,
            sub,
            question,
        }))
    } else {
        Err(Fault::Bad)
    }
}

// A fetch after a line of the time `before`.
fn fetch_after(
    before: u64,
    head: LineHead,
    sub: u32,
    wanted: u32,
    n: u32,
) -> Result<DialogueLine, Fault>
    ensures { result ≡ spec.fetch_after before (record { time = head.time; file = head.file; sub = sub; wanted = wanted; n = n }) }
{
    if before <= head.time {
        Ok(DialogueLine::Fetch(Fetch {
            time: head.time,
            file: head.file,
            sub,
            wanted,
            n,
        }))
    } else {
        Err(Fault::Bad)
    }
}
