// A session, line by line.
ghost use Rattle.std.specs.Prelude.{◌≡◌, ◌≤◌, map, IfOk, OnOk, OnErr, IsErrOf};
ghost use Rattle.std.specs.Io.KnownBytes.{Appends};
ghost use Rattle.std.specs.List.{All};
ghost use Rattle.cm_base.specs.Causes.{Rose};
ghost use Rattle.cm_base.specs.Transfer.{AppendsPrefix};
ghost use Rattle.cm_board.specs.Board.{IsSoundSub};
ghost use Rattle.cm_replay.specs.Job.{IsJob, setting_of};
ghost use Rattle.cm_replay.specs.Replies.{CanReplay};
ghost use Rattle.cm_replay.specs.State.{idle_device};
ghost use Rattle.cm_replay.specs.Texts.{replay_text};

use crate::acting::step;
use crate::job::Job;
use crate::seat::Seat;
use crate::trying::{BoxedAccepted, try_all};
use cm_base::outside::Sink;
use cm_base::prover::shows;
use cm_base::transfer::{NoMemory, flush, flush_full};
use cm_board::board::{BoardDesc, Sub};
use cm_session::op::SessionLine;
use cm_signal::setting::Setting;
use cm_sub::files::Files;
use cm_sub::state::SubState;
use std::alloc::Global;

/// Why a replay didn't write its whole text.
pub use cm_base::transfer::TextStop as ReplayStop;

/// Writes the text that is answered to a job's session, in pieces of about 64 KiB. A fault of the
/// sink or want of memory leaves a prefix of the text written.
pub fn replay<K: Sink>(alloc: Global, job: &Job, sink: &mut K) -> Result<(), ReplayStop>
    ensures ok { OnOk result (Appends (K.text sink.old) (K.text sink.new) (replay_text (setting_of job.now) job.now.lines)) }
    ensures prefix { OnErr result (AppendsPrefix (K.text sink.old) (K.text sink.new) (replay_text (setting_of job.now) job.now.lines)) }
    ensures fault { IsErrOf result ReplayStop.WriteFault → Rose (K.faults sink.old) (K.faults sink.new) }
    ensures later { K.faults sink.old ≤ K.faults sink.new }
{
    let board = &job.board;
    // This read shows that a board has few subdevices.
    shows(&board.version);
    let setting = Setting {
        board,
        signals: &job.signals,
    };
    let seats = seats_of(alloc, board)?;
    let tried = try_all(alloc, board, &job.lines)?;
    replay_lines(alloc, &setting, &job.lines, &tried, seats, sink)
}

// Answers the lines of a session one after the other, from subdevices as they are at its start.
fn replay_lines<'a, K: Sink>(
    alloc: Global,
    setting: &Setting<'a>,
    lines: &[SessionLine],
    tried: &'a [Option<BoxedAccepted>],
    seats: Vec<Seat<'a>>,
    sink: &mut K,
) -> Result<(), ReplayStop>
    requires { CanReplay setting.now lines.now tried.now seats.items }
    ensures ok { OnOk result (Appends (K.text sink.old) (K.text sink.new) (replay_text setting.now lines.now)) }
    ensures prefix { OnErr result (AppendsPrefix (K.text sink.old) (K.text sink.new) (replay_text setting.now lines.now)) }
    ensures fault { IsErrOf result ReplayStop.WriteFault → Rose (K.faults sink.old) (K.faults sink.new) }
    ensures later { K.faults sink.old ≤ K.faults sink.new }
{
    let board = setting.board;
    let mut files = Files::new(board.subs.len() as u32);
    let mut seats = seats;
    let mut text = Vec::new(alloc);
    for i in 0..lines.len() {
        step(
            alloc, setting, &lines[i], &tried[i], &mut files, &mut seats, &mut text,
        )?;
        flush_full(sink, &mut text)?;
    }
    flush(sink, &mut text)?;
    Ok(())
}

/// The subdevices of a board as they are at the start of a session.
pub fn seats_of<'a>(alloc: Global, board: &BoardDesc) -> Result<Vec<Seat<'a>>, NoMemory>
    ensures seats { IfOk result (λ seats. seats.items ≡ map idle_device board.now.subs) }
    ensures subs { IfOk result (λ seats. All IsSoundSub board.now.subs) }
{
    let mut seats = Vec::new(alloc);
    for sub in &board.subs {
        seats.push(idle_seat(alloc, sub)?)?;
    }
    Ok(seats)
}

// A subdevice at the start of a session.
fn idle_seat<'a>(alloc: Global, sub: &Sub) -> Result<Seat<'a>, NoMemory>
    ensures seat { IfOk result (λ seat. seat ≡ idle_device sub.now) }
    ensures sound { IfOk result (λ seat. IsSoundSub sub.now) }
{
    Ok(Seat {
        state: SubState::new(alloc, sub.channels)?,
        running: None,
    })
}
