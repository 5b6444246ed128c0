// The session part of a run job, read into lines.
ghost use Rattle.std.specs.Prelude.{◌≡◌, ◌≤◌, ◌+◌, drop, length, IfOk};
ghost use Rattle.cm_base.specs.LineView.{line_view};
ghost use Rattle.cm_base.specs.ReadStop.{Gives};
ghost use Rattle.cm_base.specs.Reading.{at_line};
ghost use Rattle.cm_expand.specs.Totals.{Reports, length_of, length_of_all};
ghost use Rattle.cm_job.specs.Calls.{CanCall, plan_of};
ghost use Rattle.cm_job.specs.RunLines.{AreRunLines};
ghost use Rattle.cm_job.specs.RunPart as spec;
ghost use Rattle.cm_job.specs.WatchLines.{AreWatchLines};
ghost use Rattle.cm_signal.specs.Bounds.{bounds_of};

use crate::accepting::take_line;
use crate::asked::{Session, read_asked};
use crate::line::RunLine;
use cm_base::faults::{Fault, ReadStop};
use cm_base::lines::{Line, Lines};
use cm_base::parts::refused;
use cm_base::words::at_line;
use cm_board::board::BoardDesc;
use cm_expand::totals::{Total, total_with};
use cm_signal::bounds::Bounds;
use cm_signal::signals::Signals;
use std::alloc::Global;

// The most lines of a run.
const MOST_LINES: usize = 16;

/// Reads the lines of a run from the index `at` to the end of the text. It refuses the first line
/// that fails: one that isn't of its form, a seventeenth one, one whose command its subdevice
/// doesn't accept or is of the other direction, and one with more values, greater ones or more
/// conversions than it may have. A line may have 1,000,000 conversions, and all together 4,000,000.
pub fn read_run(
    alloc: Global,
    board: &BoardDesc,
    signals: &Signals,
    lines: &Lines<'_>,
    at: usize,
) -> Result<Vec<RunLine>, ReadStop>
    ensures value { Gives (λ all. all.items) result (spec.run_of board.now signals.now (drop at lines.now.list)) }
    ensures lines { IfOk result (λ all. AreRunLines board.now signals.now all.items) }
{
    read_session(alloc, Session::Run, board, signals, lines, at)
}

/// Reads the lines of a watch, as `read_run` does those of a run. A `drive` line, a line that is
/// free, one that takes less than all samples, and one whose list is longer than its subdevice's
/// buffer are refused as Bad too.
pub fn read_watch(
    alloc: Global,
    board: &BoardDesc,
    signals: &Signals,
    lines: &Lines<'_>,
    at: usize,
) -> Result<Vec<RunLine>, ReadStop>
    ensures value { Gives (λ all. all.items) result (spec.watch_of board.now signals.now (drop at lines.now.list)) }
    ensures lines { IfOk result (λ all. AreWatchLines board.now signals.now all.items) }
{
    read_session(alloc, Session::Watch, board, signals, lines, at)
}

// The lines of a session from the index `at` to the end of the text.
fn read_session(
    alloc: Global,
    session: Session,
    board: &BoardDesc,
    signals: &Signals,
    lines: &Lines<'_>,
    at: usize,
) -> Result<Vec<RunLine>, ReadStop>
    ensures value { Gives (λ all. all.items) result (spec.lines_of session board.now signals.now (drop at lines.now.list)) }
    ensures lines { IfOk result (λ all. AreRunLines board.now signals.now all.items) }
{
    let mut lines = lines.from(at);
    let mut line = Line::empty(alloc);
    let mut all = Vec::new(alloc);
    let mut total = Total::AtMost(0);
    while lines.next(alloc, &mut line)? {
        let (next, with_next) = match read_line(
            alloc, session, board, signals, &all, total, &line,
        ) {
            Ok(read) => read,
            Err(stop) => return Err(stop),
        };
        all.push(next)?;
        total = with_next;
    }
    Ok(all)
}

// A line after others, and the total with it.
fn read_line(
    alloc: Global,
    session: Session,
    board: &BoardDesc,
    signals: &Signals,
    before: &[RunLine],
    total: Total,
    line: &Line<'_>,
) -> Result<(RunLine, Total), ReadStop>
    requires before { AreRunLines board.now signals.now before.now }
    requires total { Reports total (length_of_all (plan_of board.now signals.now) before.now) }
    ensures value { Gives (λ r. r.0) result (at_line line.now.number (spec.line_after session board.now signals.now before.now (line_view line.now))) }
    ensures total { IfOk result (λ r. Reports r.1 (length_of_all (plan_of board.now signals.now) before.now + length_of (plan_of board.now signals.now r.0))) }
{
    let next = read_next(alloc, session, board, signals, before.len(), line)?;
    let total = at_line(
        line.number,
        total_with(board, signals, before, total, &next),
    )?;
    Ok((next, total))
}

// The line that a text says after so many others.
fn read_next(
    alloc: Global,
    session: Session,
    board: &BoardDesc,
    signals: &Signals,
    count: usize,
    line: &Line<'_>,
) -> Result<RunLine, ReadStop>
    ensures value { Gives (λ next. next) result (at_line line.now.number (spec.next_line session board.now (bounds_of board.now signals.now) count (line_view line.now))) }
    ensures call { IfOk result (CanCall board.now signals.now) }
{
    let asked = read_asked(alloc, Bounds::of(board, signals), line)?;
    if count >= MOST_LINES {
        return Err(refused(line.number, Fault::Limit));
    }
    take_line(alloc, session, board, line.number, asked)
}
