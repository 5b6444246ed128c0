// The commands that stream a job with threads.
ghost use Rattle.std.specs.Prelude.{◌≡◌, true, ◌<◌, ◌≤◌, ◌-◌, ◌^◌, drop, length, Ok, IfOk, IsErrOf};
ghost use Rattle.cm_base.specs.Causes.{Rose};
ghost use Rattle.cm_base.specs.ReadStop.{Gives};
ghost use Rattle.cm_signal.specs.Fitting.{FitBoard};
ghost use Rattle.cm_cli.specs.Commands as spec;
ghost use Rattle.cm_cli.specs.Said.{MayGive, Streams, lines_said, said, session_said};
ghost use Rattle.cm_cli.specs.Serving.{Serves};

use crate::command::Command;
use crate::jobs::ThreadJob;
use crate::stop::Stop;
use cm_base::faults::ReadStop;
use cm_base::gate::Gate;
use cm_base::lines::{Lines, split_lines};
use cm_base::outside::Sink;
use cm_base::transfer::NoMemory;
use cm_board::board::BoardDesc;
use cm_board_text::reading::read_board;
use cm_job::job::RunJob;
use cm_job::loop_reading::read_loop;
use cm_job::reading::{read_run, read_watch};
use cm_loop::looping::loop_job;
use cm_run::running::run_job;
use cm_signal::signals::Signals;
use cm_signal_text::reading::read_signals;
use cm_text::blocks::Blocks;
use cm_watch::job::WatchJob;
use cm_watch::watching::watch_job;
use std::alloc::Global;
use std::sync::Wait;
use std::thread::Threads;

/// Streams the job that a whole text says, and writes its text: nothing is written where it is refused.
pub(crate) fn stream<R: Threads + Wait + Sync, K: Sink, G: Gate + Sync>(
    rt: &R,
    alloc: Global,
    command: Command,
    bytes: &[u8],
    sink: &mut K,
    gate: &G,
) -> Result<(), Stop>
    requires streams { spec.streams command ≡ true }
    requires few { length bytes.now < 2 ^ 32 - 1 }
    ensures said { Serves result (said command bytes.now) (K.text sink.old) (K.text sink.new) }
    ensures fault { IsErrOf result Stop.WriteFault → Rose (K.faults sink.old) (K.faults sink.new) }
    ensures later { K.faults sink.old ≤ K.faults sink.new }
{
    let job = read_job(alloc, command, bytes)?;
    write_text(rt, alloc, &job, sink, gate)
}

// Streams a job and writes its text.
fn write_text<R: Threads + Wait + Sync, K: Sink, G: Gate + Sync>(
    rt: &R,
    alloc: Global,
    job: &ThreadJob,
    sink: &mut K,
    gate: &G,
) -> Result<(), Stop>
    ensures said { Serves result (Ok (Streams job.now)) (K.text sink.old) (K.text sink.new) }
    ensures fault { IsErrOf result Stop.WriteFault → Rose (K.faults sink.old) (K.faults sink.new) }
    ensures later { K.faults sink.old ≤ K.faults sink.new }
{
    let text = stream_text(rt, alloc, job, gate)?;
    text.write(sink)?;
    Ok(())
}

// Streams a job, and gives its text.
fn stream_text<R: Threads + Wait + Sync, G: Gate + Sync>(
    rt: &R,
    alloc: Global,
    job: &ThreadJob,
    gate: &G,
) -> Result<Blocks, NoMemory>
    ensures { IfOk result (λ text. MayGive job.now text) }
{
    match job {
        ThreadJob::Run(job) => Ok(run_job(rt, alloc, job, gate)?.text),
        ThreadJob::Watch(job) => watch_job(rt, alloc, job, gate),
        ThreadJob::Loop(job) => loop_job(rt, alloc, job, gate),
    }
}

// The job that a text says.
fn read_job(alloc: Global, command: Command, bytes: &[u8]) -> Result<ThreadJob, ReadStop>
    requires streams { spec.streams command ≡ true }
    requires few { length bytes.now < 2 ^ 32 - 1 }
    ensures { Gives (λ job. Streams job) result (said command bytes.now) }
{
    let lines = split_lines(alloc, bytes)?;
    read_lines(alloc, command, &lines)
}

fn read_lines(alloc: Global, command: Command, lines: &Lines<'_>) -> Result<ThreadJob, ReadStop>
    requires { spec.streams command ≡ true }
    ensures { Gives (λ job. Streams job) result (lines_said command lines.now.end lines.now.list) }
{
    let (board, at) = read_board(alloc, lines)?;
    let (signals, at) = read_signals(alloc, &board, lines, at)?;
    read_session(alloc, command, board, signals, lines, at)
}

// The job of the session part over a board and signals.
fn read_session(
    alloc: Global,
    command: Command,
    board: BoardDesc,
    signals: Signals,
    lines: &Lines<'_>,
    at: usize,
) -> Result<ThreadJob, ReadStop>
    requires streams { spec.streams command ≡ true }
    requires fits { FitBoard board.subs signals }
    ensures { Gives (λ job. Streams job) result (session_said command (record { board = board; signals = signals }) lines.now.end (drop at lines.now.list)) }
{
    match command {
        Command::Run => {
            let session = read_run(alloc, &board, &signals, lines, at)?;
            Ok(ThreadJob::Run(RunJob {
                board,
                signals,
                lines: session,
            }))
        }
        Command::Watch => {
            let session = read_watch(alloc, &board, &signals, lines, at)?;
            Ok(ThreadJob::Watch(WatchJob::new(board, signals, session)))
        }
        Command::Loop => Ok(ThreadJob::Loop(read_loop(alloc, board, signals, lines, at)?)),
        _ => unreachable!(),
    }
}
