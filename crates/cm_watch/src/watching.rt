// A whole watch.
ghost use Rattle.std.specs.Prelude.{◌≡◌, ◌≤◌, length, IfOk};
ghost use Rattle.std.specs.List.{All};
ghost use Rattle.cm_block.specs.RunText.{run_text};
ghost use Rattle.cm_job.specs.RunLines.{CanRun};
ghost use Rattle.cm_job.specs.WatchLines.{IsWatched};
ghost use Rattle.cm_watch.specs.Opened.{HaveWatched};

use crate::beside::watch_sides;
use crate::blocks::blocks_of;
use crate::client::Watched;
use crate::events::WatchEvents;
use crate::job::WatchJob;
use crate::opening::{Opened, open_lines};
use cm_base::gate::Gate;
use cm_base::transfer::NoMemory;
use cm_board::board::BoardDesc;
use cm_client::claiming::states_of;
use cm_expand::plan::Plan;
use cm_job::line::RunLine;
use cm_signal::signals::Signals;
use cm_stream::merge::Merge;
use cm_sub::owners::Owners;
use cm_text::blocks::Blocks;
use std::alloc::Global;
use std::sync::Wait;
use std::thread::Threads;

/// Streams the lines of a job beside each other, each with a board and a munger on threads of their
/// own and a ring of its own, and reads all of them in this thread, scan by scan, which makes the lines
/// of their samples as they come. It gives the text after all threads have ended: the block of each line,
/// in the order of the lines.
pub fn watch_job<R: Threads + Wait + Sync, G: Gate + Sync>(
    rt: &R,
    alloc: Global,
    job: &WatchJob,
    gate: &G,
) -> Result<Blocks, NoMemory>
    ensures { IfOk result (λ text. text ≡ run_text job.now.board job.now.signals job.now.lines) }
{
    let job = job.job();
    let watched = watch_lines(rt, alloc, &job.board, &job.signals, &job.lines, gate)?;
    blocks_of(alloc, job, watched)
}

// Reads lines to their ends, each of which has threads of its own for its board and its munger.
fn watch_lines<'a, R: Threads + Wait + Sync, G: Gate + Sync>(
    rt: &R,
    alloc: Global,
    board: &'a BoardDesc,
    signals: &'a Signals,
    lines: &'a [RunLine],
    gate: &G,
) -> Result<Watched<'a, Plan<'a>>, NoMemory>
    requires run { All (CanRun board.now signals.now) lines.now }
    requires watched { All (IsWatched board.now) lines.now }
    requires few { length lines.now ≤ 16 }
    ensures { IfOk result (λ w. HaveWatched board.entry.now signals.entry.now lines.entry.now w.merge.streams w.texts.items) }
{
    let states = states_of(alloc, &board.subs)?;
    let (owners, seat) = Owners::open(alloc, states)?;
    let Opened {
        sides,
        events,
        streams,
        texts,
    } = open_lines(alloc, &owners, board, signals, lines)?;
    let merge = Merge::new(alloc, streams)?;
    let client = Watched { texts, merge };
    let events = WatchEvents::new(events);
    watch_sides(rt, alloc, &owners, seat, sides, client, &events, gate).or(Err(NoMemory))
}
