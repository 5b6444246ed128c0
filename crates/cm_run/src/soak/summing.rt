// One line's stream, whose samples are summed.
ghost use Rattle.std.specs.Prelude.{◌≡◌, ◌<◌, length, slice_get, IfOk, IfSome, None};
ghost use Rattle.std.specs.List.{All, AllZip};
ghost use Rattle.cm_expand.specs.PlanView.{plan_text};
ghost use Rattle.cm_block.specs.Going.{IsGo};
ghost use Rattle.cm_run.specs.SoakSums as spec;
ghost use Rattle.cm_job.specs.Calls as calls;
ghost use Rattle.cm_job.specs.RunLines.{CanRun};
ghost use Rattle.cm_run.specs.Lines.{HoldsLine};
ghost use Rattle.cm_sub.specs.Owning.{Holds};

use crate::gone::stream_go;
use crate::running::stream_lines;
use crate::soak::part::Part;
use crate::soak::sum::Sum;
use cm_base::gate::Gate;
use cm_base::prover::shows;
use cm_base::transfer::NoMemory;
use cm_block::going::{Go, go_of};
use cm_board::board::BoardDesc;
use cm_expand::plan::Plan;
use cm_job::job::RunJob;
use cm_job::line::{Mode, RunLine};
use cm_ring::reader::Reader;
use cm_signal::signals::Signals;
use cm_sub::owners::OwnerSeat;
use cm_sub::state::SubState;
use std::alloc::Global;
use std::sync::Wait;
use std::thread::Threads;

/// A line's part, with the reader of its ring.
#[derive(Drop)]
pub struct Summed<'a> {
    pub part: Part,
    pub reader: Reader<Plan<'a>>,
}

/// Streams a paced line through a ring of its own, and sums what its client reads.
pub fn soak_go<'a, R: Threads + Wait + Sync, G: Gate + Sync>(
    rt: &R,
    alloc: Global,
    go: Go<'a>,
    gate: &G,
    who: u32,
) -> Result<Summed<'a>, NoMemory>
    requires go { IsGo (plan_text go.plan) go.cmd.now }
    requires paced { go.mode ≡ Mode.Paced }
    requires all { go.take ≡ None }
    ensures { IfOk result (λ d. spec.HasSummed (plan_text go.entry.plan) d.part d.reader) }
{
    let streamed = stream_go(rt, alloc, go, Sum::new(), gate, who)?;
    Ok(Summed {
        part: streamed.samples.part(),
        reader: streamed.reader,
    })
}

// Streams a line while a seat holds its subdevice, and sums what its client reads.
fn one_line<'a, R: Threads + Wait + Sync, G: Gate + Sync>(
    rt: &R,
    alloc: Global,
    board: &'a BoardDesc,
    signals: &'a Signals,
    line: &'a RunLine,
    holder: &OwnerSeat,
    gate: &G,
    who: u32,
) -> Result<Summed<'a>, NoMemory>
    requires runs { CanRun board.now signals.now line.now }
    requires soaks { spec.IsSoakLine line.now }
    requires holds { Holds (calls.cmd_of line.now).sub holder.now.holds }
    ensures { IfOk result (λ d. spec.HasSummed (calls.plan_of board.now signals.now line.now) d.part d.reader) }
{
    shows(holder);
    match line {
        RunLine::Go { .. } => soak_go(rt, alloc, go_of(board, signals, line), gate, who),
        RunLine::Drive { .. } => unreachable!(),
    }
}

// Streams the line at a place of a job while a seat holds its subdevice, and sums what its client reads.
fn line_at<'a, R: Threads + Wait + Sync, G: Gate + Sync>(
    rt: &R,
    alloc: Global,
    job: &'a RunJob,
    place: usize,
    holder: &OwnerSeat,
    gate: &G,
) -> Result<Summed<'a>, NoMemory>
    requires place { place < length job.now.lines }
    requires holds { HoldsLine holder.now.owners job.now.lines place holder.now }
    requires soaks { All spec.IsSoakLine job.now.lines }
    ensures { IfSome (slice_get job.now.lines place) (λ line. IfOk result (λ d. spec.HasSummed (calls.plan_of job.now.board job.now.signals line) d.part d.reader)) }
{
    let line = &job.lines[place];
    one_line(
        rt,
        alloc,
        &job.board,
        &job.signals,
        line,
        holder,
        gate,
        place as u32,
    )
}

/// Streams the lines of a job beside each other, and sums what their clients read.
pub(crate) fn summed_lines<'a, R: Threads + Wait + Sync, G: Gate + Sync>(
    rt: &R,
    alloc: Global,
    job: &'a RunJob,
    gate: &G,
) -> Result<Vec<Summed<'a>>, NoMemory>
    requires { All spec.IsSoakLine job.now.lines }
    ensures { IfOk result (λ made. AllZip (λ line d. spec.HasSummed (calls.plan_of job.now.board job.now.signals line) d.part d.reader) job.now.lines made.items) }
{
    let stream = move |place: usize, holder: &OwnerSeat, _held: &SubState| -> Result<
        Summed<'_>,
        NoMemory,
    >
        requires place { place < length job.now.lines }
        requires holds { HoldsLine holder.now.owners job.now.lines place holder.now }
        requires soaks { All spec.IsSoakLine job.now.lines }
        ensures { IfSome (slice_get job.entry.now.lines place) (λ line. IfOk result (λ d. spec.HasSummed (calls.plan_of job.entry.now.board job.entry.now.signals line) d.part d.reader)) }
    { line_at(rt, alloc, job, place, holder, gate) };
    stream_lines(rt, alloc, job, &stream)
}
