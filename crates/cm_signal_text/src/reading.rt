// The signals part of a text, read into signals.
ghost use Rattle.std.specs.Prelude.{◌≡◌, ◌≤◌, ◌<◌, ◌^◌, [], ◌∷◌, true, codes, drop, length, map, IfOk, OnOk};
ghost use Rattle.cm_base.specs.LineView.{line_view};
ghost use Rattle.cm_base.specs.Parts as parts;
ghost use Rattle.cm_base.specs.ReadStop.{Gives};
ghost use Rattle.cm_base.specs.Reading.{at_line};
ghost use Rattle.cm_base.specs.Words.{alone};
ghost use Rattle.cm_signal.specs.Fitting.{FitBoard};
ghost use Rattle.cm_signal.specs.Adding.{added, with_said};
ghost use Rattle.cm_signal.specs.Said.{IsSaid};
ghost use Rattle.cm_signal_text.specs.SignalsPart as spec;
ghost use Rattle.cm_signal_text.specs.SignalsPart.{horizon_words, said_after, signals_at, signals_after, signals_of};

use crate::said::read_signal;
use cm_base::faults::{Fault, ReadStop};
use cm_base::lines::{Cursor, Line, Lines};
use cm_base::parts::{begins, fixed, refused};
use cm_base::words::{at_line, none, one, time_in};
use cm_board::board::BoardDesc;
use cm_board::versions::is_wide;
use cm_signal::signal_line::SignalLine;
use cm_signal::signals::Signals;
use std::alloc::Global;

/// Reads the signals part from the `signals` line, whose index is `at`, and reports the index of the
/// line after the `session` line. It refuses the first line that fails, and reports that the
/// `session` line is missing at the end of the text.
pub fn read_signals(
    alloc: Global,
    board: &BoardDesc,
    lines: &Lines<'_>,
    at: usize,
) -> Result<(Signals, usize), ReadStop>
    ensures value { Gives (λ r. (r.0, r.1)) result (signals_at board.now lines.now.end at lines.now.list) }
    ensures within { IfOk result (λ r. r.1 ≤ length lines.now.list) }
    ensures fits { IfOk result (λ r. FitBoard board.now.subs r.0) }
{
    let end = lines.end();
    let (signals, count) = read_part(alloc, board, lines.from(at), end)?;
    Ok((signals, at + count))
}

// The signals of these lines from the first to the `session` line, and how many lines they are.
fn read_part(
    alloc: Global,
    board: &BoardDesc,
    cursor: Cursor<'_>,
    end: u32,
) -> Result<(Signals, usize), ReadStop>
    requires { length cursor < 2 ^ 32 }
    ensures value { Gives (λ r. (r.0, r.1)) result (signals_of board.now end cursor.entry) }
    ensures within { IfOk result (λ r. (0 < r.1) × (r.1 ≤ length cursor.entry)) }
    ensures fits { IfOk result (λ r. FitBoard board.now.subs r.0) }
{
    let mut cursor = cursor;
    let mut line = Line::empty(alloc);
    let horizon = read_horizon(alloc, board, &mut cursor, &mut line, end)?;
    let mut signals = Signals::silent(alloc, horizon)?;
    let count = add_lines(alloc, board, &mut signals, &mut cursor, &mut line, end)?;
    Ok((signals, 1 + count))
}

// The last nanosecond, which the `signals` line says.
fn read_horizon<'a>(
    alloc: Global,
    board: &BoardDesc,
    cursor: &mut Cursor<'a>,
    line: &mut Line<'a>,
    end: u32,
) -> Result<u64, ReadStop>
    ensures value { Gives (λ horizon. horizon) result (parts.fixed end (codes "signals") (horizon_words board.now.version) cursor.old) }
    ensures limit { IfOk result (λ horizon. horizon ≤ 10 ^ 15) }
    ensures some { IfOk result (λ horizon. 0 < length cursor.old) }
    ensures rest { cursor.new ≡ drop 1 cursor.old }
{
    if !cursor.next(alloc, line)? {
        return Err(refused(end, Fault::Missing));
    }
    let (number, words) = fixed(line, b"signals")?;
    at_line(number, horizon(board.version, words))
}

fn horizon(version: u32, words: &[&[u8]]) -> Result<u64, Fault>
    ensures value { result ≡ horizon_words version (map (λ word. word.now) words.now) }
    ensures limit { IfOk result (λ horizon. horizon ≤ 10 ^ 15) }
{
    let horizon = one(words)?;
    time_in(horizon, 0, greatest_horizon(version))
}

/// The greatest horizon in texts of a version, in nanoseconds.
pub fn greatest_horizon(version: u32) -> u64
    ensures { result ≡ spec.greatest_horizon version }
{
    if is_wide(version) {
        1_000_000_000_000_000
    } else {
        1_000_000_000_000
    }
}

// The `session` line has no more words.
fn read_session(line: &Line<'_>) -> Result<(), ReadStop>
    ensures { Gives (λ u. true) result (parts.fixed 0 (codes "session") (alone true) (line_view line.now ∷ [])) }
{
    let (number, words) = fixed(line, b"session")?;
    at_line(number, none(words))
}

// Adds what the lines up to the `session` line say to the signals, and answers how many lines there
// are with it.
fn add_lines<'a>(
    alloc: Global,
    board: &BoardDesc,
    signals: &mut Signals,
    cursor: &mut Cursor<'a>,
    line: &mut Line<'a>,
    end: u32,
) -> Result<usize, ReadStop>
    requires few { length cursor.old < 2 ^ 32 }
    requires fits { FitBoard board.now.subs signals.old }
    ensures fits { OnOk result (FitBoard board.now.subs signals.new) }
    ensures value { Gives (λ count. (signals.new, count)) result (signals_after board.now end signals.old cursor.old) }
    ensures within { IfOk result (λ count. count ≤ length cursor.old) }
{
    let mut count = 0;
    while cursor.next(alloc, line)? {
        count += 1;
        if begins(b"session", line) {
            read_session(line)?;
            return Ok(count);
        }
        add_line(alloc, board, signals, line)?;
    }
    Err(refused(end, Fault::Missing))
}

// Adds what a line says to the signals.
fn add_line(
    alloc: Global,
    board: &BoardDesc,
    signals: &mut Signals,
    line: &Line<'_>,
) -> Result<(), ReadStop>
    requires fits { FitBoard board.now.subs signals.old }
    ensures fits { OnOk result (FitBoard board.now.subs signals.new) }
    ensures value { Gives (λ u. signals.new) result (at_line line.now.number (said_after board.now signals.old (line_view line.now))) }
{
    let said = read_signal(alloc, board, signals.horizon, line)?;
    add_said(signals, line.number, said)
}

// Adds what a line says to the signals, where it may stand after those so far.
fn add_said(signals: &mut Signals, number: u32, said: SignalLine) -> Result<(), ReadStop>
    requires { IsSaid signals.old.horizon said }
    ensures kept { OnOk result (signals.new ≡ with_said signals.old said) }
    ensures value { Gives (λ u. signals.new) result (at_line number (added signals.old said)) }
{
    at_line(number, signals.check(&said))?;
    signals.put(said)?;
    Ok(())
}
