// The session part of a loop job, read into the job.
ghost use Rattle.std.specs.Prelude.{◌≡◌, drop, IfOk};
ghost use Rattle.cm_base.specs.LineView.{line_view};
ghost use Rattle.cm_base.specs.ReadStop.{Gives};
ghost use Rattle.cm_base.specs.Reading.{at_line};
ghost use Rattle.cm_job.specs.LoopJob.{IsLoopJob};
ghost use Rattle.cm_job.specs.LoopPart as spec;
ghost use Rattle.cm_signal.specs.Bounds.{bounds_of};

use crate::loop_accepting::accept_loop;
use crate::loop_asked::read_asked;
use crate::loop_job::LoopJob;
use crate::loop_line::LoopLine;
use cm_base::faults::{Fault, ReadStop};
use cm_base::lines::{Cursor, Line, Lines};
use cm_base::parts::refused;
use cm_base::words::at_line;
use cm_board::board::BoardDesc;
use cm_signal::signals::Signals;
use std::alloc::Global;

/// Reads the one line of a loop from the index `at` to the end of the text. It refuses a line that
/// isn't of its form or fails one of its rules, a text that ends before it as Missing, and a further
/// line of the form as Limit.
pub fn read_loop(
    alloc: Global,
    board: BoardDesc,
    signals: Signals,
    lines: &Lines<'_>,
    at: usize,
) -> Result<LoopJob, ReadStop>
    ensures value { Gives (λ job. job) result (spec.loop_of board signals lines.now.end (drop at lines.now.list)) }
    ensures job { IfOk result IsLoopJob }
{
    let line = read_only(alloc, &board, &signals, lines.from(at), lines.end())?;
    Ok(job_of(board, signals, line))
}

// The job of a line.
fn job_of(board: BoardDesc, signals: Signals, line: LoopLine) -> LoopJob
    requires { IsLoopJob (spec.job_of board signals line) }
    ensures { result ≡ spec.job_of board signals line }
{
    let LoopLine {
        t_in,
        t_out,
        window,
        input,
        output,
    } = line;
    LoopJob {
        board,
        signals,
        t_in,
        t_out,
        window,
        input,
        output,
    }
}

// The line that lines say, of which there is one. `end` is the number of the line after the text.
fn read_only(
    alloc: Global,
    board: &BoardDesc,
    signals: &Signals,
    lines: Cursor<'_>,
    end: u32,
) -> Result<LoopLine, ReadStop>
    ensures value { Gives (λ line. line) result (spec.only_line board.now signals.now end lines.entry) }
    ensures line { IfOk result (λ line. IsLoopJob (spec.job_of board.now signals.now line)) }
{
    let mut lines = lines;
    let mut line = Line::empty(alloc);
    if !lines.next(alloc, &mut line)? {
        return Err(refused(end, Fault::Missing));
    }
    let first = read_line(alloc, board, signals, &line)?;
    read_no_more(alloc, board, signals, lines)?;
    Ok(first)
}

// The line that a text says.
fn read_line(
    alloc: Global,
    board: &BoardDesc,
    signals: &Signals,
    line: &Line<'_>,
) -> Result<LoopLine, ReadStop>
    ensures value { Gives (λ next. next) result (at_line line.now.number (spec.loop_line board.now signals.now (line_view line.now))) }
    ensures line { IfOk result (λ line. IsLoopJob (spec.job_of board.now signals.now line)) }
{
    let asked = read_asked(alloc, board, signals, line)?;
    at_line(line.number, accept_loop(board, signals, asked))
}

// No line, after the one of a loop.
fn read_no_more(
    alloc: Global,
    board: &BoardDesc,
    signals: &Signals,
    lines: Cursor<'_>,
) -> Result<(), ReadStop>
    ensures { Gives (λ u. tt) result (spec.no_more (bounds_of board.now signals.now) lines.entry) }
{
    let mut lines = lines;
    let mut line = Line::empty(alloc);
    if !lines.next(alloc, &mut line)? {
        return Ok(());
    }
    read_further(alloc, board, signals, &line)
}

// A further line, which is refused where its words aren't.
fn read_further(
    alloc: Global,
    board: &BoardDesc,
    signals: &Signals,
    line: &Line<'_>,
) -> Result<(), ReadStop>
    ensures { Gives (λ u. tt) result (at_line line.now.number (spec.further_line (bounds_of board.now signals.now) (line_view line.now))) }
{
    read_asked(alloc, board, signals, line)?;
    Err(refused(line.number, Fault::Limit))
}
