// A whole run.
ghost use Rattle.std.specs.Prelude.{◌≡◌, ◌<◌, ℕ, length, slice_get, IfOk, IfSome};
ghost use Rattle.std.specs.List.{AllZip};
ghost use Rattle.cm_block.specs.RunText.{IsRunText};
ghost use Rattle.cm_run.specs.Lines.{CanStream, HaveStreamed, HoldsLine};
ghost use Rattle.cm_run.specs.Ran.{HaveRun, LineRan, as_list};
ghost use Rattle.cm_job.specs.Calls.{cmd_of};
ghost use Rattle.cm_job.specs.RunLines.{CanRun};
ghost use Rattle.cm_sub.specs.Owning.{Holds, OwnersText};

use crate::done::{LineDone, Ran, all_ran};
use crate::driving::{Drive, drive_line};
use crate::gone::go_line;
use crate::lines::lines_up_to;
use cm_base::gate::Gate;
use cm_base::prover::shows;
use cm_base::transfer::NoMemory;
use cm_block::going::go_of;
use cm_board::board::BoardDesc;
use cm_client::claiming::states_of;
use cm_expand::call::plan_of;
use cm_job::job::RunJob;
use cm_job::line::RunLine;
use cm_signal::signals::Signals;
use cm_sub::owners::{OwnerSeat, Owners};
use cm_sub::state::SubState;
use std::alloc::Global;
use std::sync::Wait;
use std::thread::Threads;

/// Streams the lines of a job beside each other, each over its own subdevice and by a call of `stream`
/// with its place, a seat that holds the subdevice and what that keeps. All seats are of the same owners. Answers
/// after all have ended: what the calls have made, in the order of the lines.
pub(crate) fn stream_lines<
    R: Threads + Wait + Sync,
    D: Send + Drop,
    F: Fn(usize, &OwnerSeat, &SubState) -> Result<D, NoMemory> + Sync,
>(rt: &R, alloc: Global, job: &RunJob, stream: &F) -> Result<Vec<D>, NoMemory>
    requires { (owners : OwnersText) (place : ℕ) → place < length job.now.lines → CanStream owners job.now.lines (F.pre stream.now) place }
    ensures { IfOk result (λ m. (owners : _) × HaveStreamed owners job.now.lines (F.post stream.now) (length job.now.lines) m.items) }
{
    let states = states_of(alloc, &job.board.subs)?;
    let (owners, seat) = Owners::open(alloc, states)?;
    let count = job.lines.len();
    lines_up_to(rt, alloc, &owners, seat, job, count, stream)
}

// Streams a line while a seat holds its subdevice, and makes its block.
fn one_line<'a, R: Threads + Wait + Sync, G: Gate + Sync>(
    rt: &R,
    alloc: Global,
    board: &'a BoardDesc,
    signals: &'a Signals,
    line: &'a RunLine,
    holder: &OwnerSeat,
    gate: &G,
    who: u32,
) -> Result<LineDone<'a>, NoMemory>
    requires runs { CanRun board.now signals.now line.now }
    requires holds { Holds (cmd_of line.now).sub holder.now.holds }
    ensures { IfOk result (λ d. LineRan board.now signals.now line.now d.block.items (as_list d.reader)) }
{
    shows(holder);
    match line {
        RunLine::Go { .. } => go_line(rt, alloc, go_of(board, signals, line), gate, who),
        RunLine::Drive { values, cmd, .. } => {
            let drive = Drive {
                plan: plan_of(board, signals, line),
                cmd,
                values: values.as_slice(),
            };
            drive_line(rt, alloc, line.sub(), drive, gate, who)
        }
    }
}

// Streams the line at a place of a job while a seat holds its subdevice, and makes its block.
fn line_at<'a, R: Threads + Wait + Sync, G: Gate + Sync>(
    rt: &R,
    alloc: Global,
    job: &'a RunJob,
    place: usize,
    holder: &OwnerSeat,
    gate: &G,
) -> Result<LineDone<'a>, NoMemory>
    requires place { place < length job.now.lines }
    requires holds { HoldsLine holder.now.owners job.now.lines place holder.now }
    ensures { IfSome (slice_get job.now.lines place) (λ line. IfOk result (λ d. LineRan job.now.board job.now.signals line d.block.items (as_list d.reader))) }
{
    let line = &job.lines[place];
    one_line(
        rt,
        alloc,
        &job.board,
        &job.signals,
        line,
        holder,
        gate,
        place as u32,
    )
}

// Streams the lines beside each other, and makes their blocks.
fn run_lines<'a, R: Threads + Wait + Sync, G: Gate + Sync>(
    rt: &R,
    alloc: Global,
    job: &'a RunJob,
    gate: &G,
) -> Result<Vec<LineDone<'a>>, NoMemory>
    ensures { IfOk result (λ made. AllZip (λ line d. LineRan job.now.board job.now.signals line d.block.items (as_list d.reader)) job.now.lines made.items) }
{
    let stream = move |place: usize, holder: &OwnerSeat, _held: &SubState| -> Result<
        LineDone<'_>,
        NoMemory,
    >
        requires { (place < length job.now.lines) × HoldsLine holder.now.owners job.now.lines place holder.now }
        ensures { IfSome (slice_get job.entry.now.lines place) (λ line. IfOk result (λ d. LineRan job.entry.now.board job.entry.now.signals line d.block.items (as_list d.reader))) }
    { line_at(rt, alloc, job, place, holder, gate) };
    stream_lines(rt, alloc, job, &stream)
}

/// Runs the lines of a job beside each other, each with a board, a munger and a client on threads of
/// their own over a ring of its own, and answers after all have ended: the text, and for each `go`
/// line the reader of its ring, which found the end that the text says.
pub fn run_job<'a, R: Threads + Wait + Sync, G: Gate + Sync>(
    rt: &R,
    alloc: Global,
    job: &'a RunJob,
    gate: &G,
) -> Result<Ran<'a>, NoMemory>
    ensures text { IfOk result (λ r. IsRunText job.now.board job.now.signals job.now.lines r.text) }
    ensures ran { IfOk result (λ r. HaveRun job.now.board job.now.signals job.now.lines r.text r.readers.items) }
{
    let lines = run_lines(rt, alloc, job, gate)?;
    all_ran(alloc, lines)
}
