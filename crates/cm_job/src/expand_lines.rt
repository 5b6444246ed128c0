// The session part of `expand`.
ghost use Rattle.std.specs.Prelude.{◌≡◌, ◌≤◌, ◌+◌, length, IfOk};
ghost use Rattle.std.specs.List.{All};
ghost use Rattle.cm_base.specs.LineView.{line_view};
ghost use Rattle.cm_base.specs.ReadStop.{Gives};
ghost use Rattle.cm_base.specs.Reading.{at_line};
ghost use Rattle.cm_expand.specs.Totals.{Reports, length_of, length_of_all};
ghost use Rattle.cm_job.specs.ExpandLines as spec;

use crate::head::{COMMAND, before_commands, only, read_command, word_at};
use cm_base::faults::{Fault, ReadStop};
use cm_base::lines::{Cursor, Line};
use cm_base::words::{at_line, time_in};
use cm_board::board::BoardDesc;
use cm_cmd::command::Cmd;
use cm_expand::call::Call;
use cm_expand::totals::{Total, total_with};
use cm_signal::bounds::Bounds;
use cm_signal::signals::Signals;
use cm_test::accepting::accepted;
use cm_test::test::Accepted;
use std::alloc::Global;

/// A command whose expansion is asked, with the time of its call in nanoseconds.
#[derive(Drop)]
pub struct ExpandLine {
    pub t0: u64,
    pub cmd: Accepted,
}

impl Call for ExpandLine {
    ghost call = { spec.call_of };

    fn call_time(&self) -> u64 {
        self.t0
    }

    fn command(&self) -> &Accepted {
        &self.cmd
    }
}

/// The lines of the session part of an `expand` job. A command that no subdevice of the board
/// accepts is Bad. More than 1,000,000 conversions in a line and more than 4,000,000 in all are
/// Limit.
pub fn read_expands(
    alloc: Global,
    board: &BoardDesc,
    signals: &Signals,
    lines: Cursor<'_>,
) -> Result<Vec<ExpandLine>, ReadStop>
    ensures lines { Gives (λ all. all.items) result (spec.expands_of board.now signals.now lines.entry) }
    ensures can { IfOk result (λ all. All (spec.CanExpand board.now signals.now) all.items) }
{
    let mut lines = lines;
    let mut line = Line::empty(alloc);
    let mut all = Vec::new(alloc);
    let mut total = Total::AtMost(0);
    while lines.next(alloc, &mut line)? {
        let (next, with_next) = match read_expand(alloc, board, signals, &all, total, &line) {
            Ok(read) => read,
            Err(stop) => return Err(stop),
        };
        all.push(next)?;
        total = with_next;
    }
    Ok(all)
}

// A line after others, and the total with it.
fn read_expand(
    alloc: Global,
    board: &BoardDesc,
    signals: &Signals,
    before: &[ExpandLine],
    total: Total,
    line: &Line<'_>,
) -> Result<(ExpandLine, Total), ReadStop>
    requires before { All (spec.CanExpand board.now signals.now) before.now }
    requires total { Reports total (length_of_all (spec.plan_of board.now signals.now) before.now) }
    ensures line { Gives (λ r. r.0) result (at_line line.now.number (spec.line_after board.now signals.now before.now (line_view line.now))) }
    ensures total { IfOk result (λ r. Reports r.1 (length_of_all (spec.plan_of board.now signals.now) before.now + length_of (spec.plan_of board.now signals.now r.0))) }
    ensures can { IfOk result (λ r. spec.CanExpand board.now signals.now r.0) }
{
    let next = read_line(alloc, board, signals, line)?;
    let total = at_line(
        line.number,
        total_with(board, signals, before, total, &next),
    )?;
    Ok((next, total))
}

// The line that a text says.
fn read_line(
    alloc: Global,
    board: &BoardDesc,
    signals: &Signals,
    line: &Line<'_>,
) -> Result<ExpandLine, ReadStop>
    ensures line { Gives (λ next. next) result (at_line line.now.number (spec.expand_line board.now signals.now (line_view line.now))) }
    ensures can { IfOk result (spec.CanExpand board.now signals.now) }
{
    let (t0, cmd) = read_words(alloc, Bounds::of(board, signals), line)?;
    at_line(line.number, accepted_line(board, t0, cmd))
}

// The time and the command of a line.
fn read_words(alloc: Global, bounds: Bounds, line: &Line<'_>) -> Result<(u64, Cmd), ReadStop>
    ensures words { Gives (λ r. (r.0, r.1)) result (at_line line.now.number (spec.expand_words bounds (line_view line.now))) }
    ensures time { IfOk result (λ r. r.0 ≤ bounds.horizon) }
    ensures few { IfOk result (λ r. length r.1.list ≤ 1024) }
{
    let t0 = at_line(line.number, expand_time(bounds.horizon, line))?;
    let cmd = read_command(alloc, bounds.version, line, 2)?;
    Ok((t0, cmd))
}

// The time of a line, which stands before its command.
fn expand_time(horizon: u64, line: &Line<'_>) -> Result<u64, Fault>
    ensures value { result ≡ spec.expand_time horizon (line_view line.now) }
    ensures within { IfOk result (λ t. t ≤ horizon) }
{
    only(b"expand", line)?;
    let words = before_commands(line.words.as_slice(), 2, COMMAND)?;
    time_in(word_at(words, 1), 0, horizon)
}

// A line whose command its subdevice accepts.
fn accepted_line(board: &BoardDesc, t0: u64, cmd: Cmd) -> Result<ExpandLine, Fault>
    requires { length cmd.list ≤ 1024 }
    ensures { result ≡ spec.accepted_line board.now (t0, cmd) }
{
    let cmd = accepted(board, cmd)?;
    Ok(ExpandLine { t0, cmd })
}
