// A whole text, and what is made of it.
ghost use Rattle.std.specs.Prelude.{◌≡◌, false, ◌-◌, ◌<◌, ◌≤◌, ◌^◌, drop, length, IsErrOf};
ghost use Rattle.cm_base.specs.Causes.{Rose};
ghost use Rattle.cm_base.specs.ReadStop.{Gives};
ghost use Rattle.cm_signal.specs.Fitting.{FitBoard};
ghost use Rattle.cm_cli.specs.Commands.{has_threads};
ghost use Rattle.cm_cli.specs.Said.{expands_said, job_of, lines_said, said, session_answer, session_said, tests_said};
ghost use Rattle.cm_cli.specs.Serving.{Serves};

use crate::command::Command;
use crate::stop::Stop;
use crate::testing::test_all;
use cm_base::faults::ReadStop;
use cm_base::lines::{Cursor, Lines, split_lines};
use cm_base::outside::Sink;
use cm_block::expanding::expand_all;
use cm_board::board::BoardDesc;
use cm_board_text::reading::read_board;
use cm_job::expand_lines::read_expands;
use cm_job::test_lines::read_tests;
use cm_replay::job::Job;
use cm_replay::replay::replay;
use cm_session::reading::read_session;
use cm_signal::signals::Signals;
use cm_signal_text::reading::read_signals;
use std::alloc::Global;

/// Does what a command without threads asks of a whole text: nothing is written before the text is read whole, and
/// nothing where it is refused.
pub(crate) fn serve<K: Sink>(
    alloc: Global,
    command: Command,
    bytes: &[u8],
    sink: &mut K,
) -> Result<(), Stop>
    requires plain { has_threads command ≡ false }
    requires few { length bytes.now < 2 ^ 32 - 1 }
    ensures said { Serves result (said command bytes.now) (K.text sink.old) (K.text sink.new) }
    ensures fault { IsErrOf result Stop.WriteFault → Rose (K.faults sink.old) (K.faults sink.new) }
    ensures later { K.faults sink.old ≤ K.faults sink.new }
{
    let lines = split_lines(alloc, bytes)?;
    serve_lines(alloc, command, &lines, sink)
}

fn serve_lines<K: Sink>(
    alloc: Global,
    command: Command,
    lines: &Lines<'_>,
    sink: &mut K,
) -> Result<(), Stop>
    requires { has_threads command ≡ false }
    ensures said { Serves result (lines_said command lines.now.end lines.now.list) (K.text sink.old) (K.text sink.new) }
    ensures fault { IsErrOf result Stop.WriteFault → Rose (K.faults sink.old) (K.faults sink.new) }
    ensures later { K.faults sink.old ≤ K.faults sink.new }
{
    let (board, at) = read_board(alloc, lines)?;
    let (signals, at) = read_signals(alloc, &board, lines, at)?;
    serve_session(alloc, command, board, signals, lines, at, sink)
}

fn serve_session<K: Sink>(
    alloc: Global,
    command: Command,
    board: BoardDesc,
    signals: Signals,
    lines: &Lines<'_>,
    at: usize,
    sink: &mut K,
) -> Result<(), Stop>
    requires plain { has_threads command ≡ false }
    requires fits { FitBoard board.subs signals }
    ensures said { Serves result (session_said command (record { board = board; signals = signals }) lines.now.end (drop at lines.now.list)) (K.text sink.old) (K.text sink.new) }
    ensures fault { IsErrOf result Stop.WriteFault → Rose (K.faults sink.old) (K.faults sink.new) }
    ensures later { K.faults sink.old ≤ K.faults sink.new }
{
    match command {
        Command::Test => serve_tests(alloc, &board, lines.from(at), sink),
        Command::Expand => serve_expands(alloc, &board, &signals, lines.from(at), sink),
        Command::Insn => play(alloc, true, board, signals, lines, at, sink),
        Command::Replay => play(alloc, false, board, signals, lines, at, sink),
        _ => unreachable!(),
    }
}

fn serve_tests<K: Sink>(
    alloc: Global,
    board: &BoardDesc,
    lines: Cursor<'_>,
    sink: &mut K,
) -> Result<(), Stop>
    ensures said { Serves result (tests_said board.now lines.entry) (K.text sink.old) (K.text sink.new) }
    ensures fault { IsErrOf result Stop.WriteFault → Rose (K.faults sink.old) (K.faults sink.new) }
    ensures later { K.faults sink.old ≤ K.faults sink.new }
{
    let cmds = read_tests(alloc, board, lines)?;
    test_all(alloc, board, &cmds, sink)?;
    Ok(())
}

fn serve_expands<K: Sink>(
    alloc: Global,
    board: &BoardDesc,
    signals: &Signals,
    lines: Cursor<'_>,
    sink: &mut K,
) -> Result<(), Stop>
    ensures said { Serves result (expands_said (record { board = board.now; signals = signals.now }) lines.entry) (K.text sink.old) (K.text sink.new) }
    ensures fault { IsErrOf result Stop.WriteFault → Rose (K.faults sink.old) (K.faults sink.new) }
    ensures later { K.faults sink.old ≤ K.faults sink.new }
{
    let all = read_expands(alloc, board, signals, lines)?;
    expand_all(alloc, board, signals, &all, sink)?;
    Ok(())
}

// Plays a session, of instructions alone or of all kinds of lines.
fn play<K: Sink>(
    alloc: Global,
    only_insn: bool,
    board: BoardDesc,
    signals: Signals,
    lines: &Lines<'_>,
    at: usize,
    sink: &mut K,
) -> Result<(), Stop>
    requires { FitBoard board.subs signals }
    ensures said { Serves result (session_answer only_insn (record { board = board; signals = signals }) (drop at lines.now.list)) (K.text sink.old) (K.text sink.new) }
    ensures fault { IsErrOf result Stop.WriteFault → Rose (K.faults sink.old) (K.faults sink.new) }
    ensures later { K.faults sink.old ≤ K.faults sink.new }
{
    let job = read_job(alloc, only_insn, board, signals, lines, at)?;
    replay(alloc, &job, sink)?;
    Ok(())
}

// The job of a session.
fn read_job(
    alloc: Global,
    only_insn: bool,
    board: BoardDesc,
    signals: Signals,
    lines: &Lines<'_>,
    at: usize,
) -> Result<Job, ReadStop>
    requires { FitBoard board.subs signals }
    ensures { Gives (λ job. job) result (job_of only_insn (record { board = board; signals = signals }) (drop at lines.now.list)) }
{
    let session = read_session(alloc, &board, &signals, lines, at, only_insn)?;
    Ok(Job {
        board,
        signals,
        lines: session,
    })
}
