// What the words of a `loop` line ask, before its rules are asked.
ghost use Rattle.std.specs.Prelude.{◌≡◌, ◌≤◌, drop, length, map, take, IfOk};
ghost use Rattle.cm_base.specs.LineView.{line_view};
ghost use Rattle.cm_base.specs.ReadStop.{Gives};
ghost use Rattle.cm_base.specs.Reading.{at_line, seen};
ghost use Rattle.cm_board.specs.Versions.{most_entries};
ghost use Rattle.cm_cmd.specs.CommandText.{command_of};
ghost use Rattle.cm_job.specs.LoopForms as spec;
ghost use Rattle.cm_signal.specs.Bounds.{bounds_of};

use crate::head::{COMMAND, before_commands, only, read_command, word_at};
use cm_base::faults::{Fault, ReadStop};
use cm_base::lines::Line;
use cm_base::parts::after_key;
use cm_base::words::{at_line, number_in, time_in};
use cm_board::board::BoardDesc;
use cm_cmd::command::Cmd;
use cm_signal::bounds::Bounds;
use cm_signal::signals::Signals;
use std::alloc::{AllocError, Global};

// The most samples of a list entry in a mean.
const MOST_WINDOW: u32 = 16;

// Where the two commands of a line stand.
const INPUT_AT: usize = 4;

const OUTPUT_AT: usize = INPUT_AT + COMMAND;

/// What the words of a line ask.
#[derive(Drop)]
pub struct AskedLoop {
    pub t_in: u64,
    pub t_out: u64,
    pub window: u32,
    pub input: Cmd,
    pub output: Cmd,
}

/// What the words of a line ask over a board and its signals, or the first fault of them from left to right.
pub(crate) fn read_asked(
    alloc: Global,
    board: &BoardDesc,
    signals: &Signals,
    line: &Line<'_>,
) -> Result<AskedLoop, ReadStop>
    ensures value { Gives (λ asked. asked) result (at_line line.now.number (spec.asked_of (bounds_of board.now signals.now) (line_view line.now))) }
    ensures input { IfOk result (λ asked. length asked.input.list ≤ 1024) }
    ensures output { IfOk result (λ asked. length asked.output.list ≤ 1024) }
{
    read_words(alloc, Bounds::of(board, signals), line)
}

// What the words of a line ask within these bounds.
fn read_words(alloc: Global, bounds: Bounds, line: &Line<'_>) -> Result<AskedLoop, ReadStop>
    ensures value { Gives (λ asked. asked) result (at_line line.now.number (spec.asked_of bounds (line_view line.now))) }
    ensures input { IfOk result (λ asked. length asked.input.list ≤ 1024) }
    ensures output { IfOk result (λ asked. length asked.output.list ≤ 1024) }
{
    let (t_in, t_out, window) = at_line(line.number, loop_head(bounds.horizon, line))?;
    let input = read_input(alloc, bounds.version, line)?;
    let output = read_command(alloc, bounds.version, line, OUTPUT_AT)?;
    Ok(AskedLoop {
        t_in,
        t_out,
        window,
        input,
        output,
    })
}

// The times of both calls and the window of a line.
fn loop_head(horizon: u64, line: &Line<'_>) -> Result<(u64, u64, u32), Fault>
    ensures { result ≡ spec.loop_head horizon (line_view line.now) }
{
    let words = after_loop(line)?;
    let words = before_commands(words, 3, 2 * COMMAND)?;
    let t_in = time_in(word_at(words, 0), 0, horizon)?;
    let t_out = time_in(word_at(words, 1), 0, horizon)?;
    let window = number_in(word_at(words, 2), 1, MOST_WINDOW)?;
    Ok((t_in, t_out, window))
}

// The words after the one word that may begin the line.
fn after_loop<'a, 'b>(line: &'b Line<'a>) -> Result<&'b [&'a [u8]], Fault>
    ensures { seen (λ words. map (λ word. word.now) words.now) result ≡ spec.after_loop (line_view line.now) }
{
    only(b"loop", line)?;
    Ok(after_key(line.words.as_slice()))
}

// The input's command, which stands before the output's.
fn read_input(alloc: Global, version: u32, line: &Line<'_>) -> Result<Cmd, ReadStop>
    ensures value { Gives (λ cmd. cmd) result (at_line line.now.number (command_of (most_entries version) (take 8 (drop 4 (line_view line.now).words)))) }
    ensures few { IfOk result (λ cmd. length cmd.list ≤ 1024) }
{
    let words = words_of(alloc, line, INPUT_AT, COMMAND)?;
    read_command(alloc, version, &words, 0)
}

// So many words of a line from a place on, as a line of their own with the same number.
#[tactic(auto, using(crate::proofs::LoopWords::clean_part, crate::proofs::LoopWords::part_seen))]
fn words_of<'a>(
    alloc: Global,
    line: &Line<'a>,
    from: usize,
    count: usize,
) -> Result<Line<'a>, AllocError>
    ensures words { IfOk result (λ part. (line_view part).words ≡ take count (drop from (line_view line.now).words)) }
    ensures number { IfOk result (λ part. part.number ≡ line.now.number) }
{
    let words = copied(alloc, words_between(line, from, count))?;
    Ok(Line {
        number: line.number,
        words,
        bad: line.bad,
    })
}

// So many words of a line from a place on.
#[tactic(auto, using(crate::proofs::LoopWords::part_between))]
fn words_between<'a, 'b>(line: &'b Line<'a>, from: usize, count: usize) -> &'b [&'a [u8]]
    ensures { result.now ≡ take count (drop from line.now.words.items) }
{
    let from = from.min(line.words.len());
    let words = &line.words[from..];
    let count = count.min(words.len());
    &words[..count]
}

// The same words in a list of their own.
fn copied<'a>(alloc: Global, words: &[&'a [u8]]) -> Result<Vec<&'a [u8]>, AllocError>
    ensures { IfOk result (λ copy. copy.items ≡ words.now) }
{
    let mut copy = Vec::new(alloc);
    for word in words {
        copy.push(*word)?;
    }
    Ok(copy)
}
