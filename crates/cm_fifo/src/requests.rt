// When the drains of a FIFO are requested, and what comes next.
ghost use Rattle.std.specs.Prelude.{◌≡◌, ◌<◌, [], length, slice_get, None, IfSome, IfNone};
ghost use Rattle.cm_expand.specs.Items.{items_of};
ghost use Rattle.cm_expand.specs.Plan.{stop_edge_of};
ghost use Rattle.cm_fifo.specs.Handed.{next_event, last_of, last_time, later, request};
ghost use Rattle.cm_fifo.specs.Held.{ahead, drain_of, IsAsked, IsEarly, IsFilled, IsHeld};
ghost use Rattle.cm_fifo.specs.State.{IsLook};

use crate::filling::{Cells, fill_half, fill_until};
use cm_base::prover::shows;
use cm_board::board::Fifo;
use cm_expand::board::Board;

// The time of the last conversion that is held.
fn last_time(cells: &Cells) -> u64
    ensures { result ≡ last_time cells.now.items }
{
    match cells.back() {
        Some(conv) => conv.time,
        None => 0,
    }
}

// The later of a time and the stop edge, where there is one.
fn later(time: u64, edge: Option<u64>) -> u64
    ensures { result ≡ later time edge }
{
    match edge {
        Some(edge) => time.max(edge),
        None => time,
    }
}

// The last request of all, where all conversions were given and some are held.
fn last_request(board: &Board<'_>, cells: &Cells, horizon: u64, edge: Option<u64>) -> u64
    requires held { IsHeld board.now cells.now.items }
    requires some { 0 < length cells.now.items }
    requires all { slice_get (items_of board.now.plan) board.now.place ≡ None }
    requires horizon { horizon ≡ board.now.plan.signals.horizon }
    requires edge { edge ≡ stop_edge_of board.now.plan }
    ensures { result ≡ last_of board.entry.now.plan }
{
    if board.complete() {
        later(last_time(cells), edge)
    } else {
        horizon
    }
}

// When the next drain is requested of a FIFO that is half full, or has all there are.
fn request_of(board: &Board<'_>, cells: &Cells, fifo: &Fifo, horizon: u64, edge: Option<u64>) -> u64
    requires filled { IsFilled fifo.now horizon edge board.now cells.now }
    requires some { 0 < length cells.now.items }
    requires asked { IsAsked fifo.now board.now cells.now.items }
    ensures { result ≡ request fifo.now (last_of board.entry.now.plan) (ahead board.entry.now cells.now.items) }
{
    match cells.get((fifo.depth / 2) as usize - 1) {
        Some(conv) => conv.time,
        None => last_request(board, cells, horizon, edge),
    }
}

// Goes on until the time of the next drain is known, and gives it. None comes exactly where nothing
// is left.
fn time_of_drain(
    board: &mut Board<'_>,
    cells: &mut Cells,
    fifo: &Fifo,
    horizon: u64,
    edge: Option<u64>,
) -> Option<u64>
    requires filled { IsFilled fifo.now horizon edge board.old cells.old }
    requires early { IsEarly fifo.now board.old cells.old.items }
    ensures filled { IsFilled fifo.now horizon edge board.new cells.new }
    ensures same { ahead board.new cells.new.items ≡ ahead board.old cells.old.items }
    ensures plan { board.new.plan ≡ board.old.plan }
    ensures early { IsEarly fifo.now board.new cells.new.items }
    ensures none { IfNone result (ahead board.new cells.new.items ≡ []) }
    ensures some { IfSome result (λ time. (0 < length cells.new.items) × (time ≡ drain_of fifo.now board.new cells.new.items)) }
{
    // The board tells what holds of each expansion: its times are in order and within the horizon.
    shows(&board.place());
    fill_half(board, cells, (fifo.depth / 2) as usize);
    if cells.is_empty() {
        return None;
    }
    let asked = request_of(board, cells, fifo, horizon, edge);
    Some(asked.saturating_add(u64::from(fifo.latency)).min(horizon))
}

/// What comes next.
pub enum Look {
    Nothing,
    Drains(u64),
    Overflows(u64),
}

/// Finds what comes next. A drain is of all that is then held, and an overflow finds the FIFO full.
pub fn look_ahead(
    board: &mut Board<'_>,
    cells: &mut Cells,
    fifo: &Fifo,
    horizon: u64,
    edge: Option<u64>,
) -> Look
    requires filled { IsFilled fifo.now horizon edge board.old cells.old }
    requires early { IsEarly fifo.now board.old cells.old.items }
    ensures filled { IsFilled fifo.now horizon edge board.new cells.new }
    ensures same { ahead board.new cells.new.items ≡ ahead board.old cells.old.items }
    ensures plan { board.new.plan ≡ board.old.plan }
    ensures early { IsEarly fifo.now board.new cells.new.items }
    ensures next { IsLook result (next_event fifo.now (last_of board.old.plan) board.old.plan.signals.horizon (ahead board.old cells.old.items)) (length cells.new.items) fifo.now.depth }
{
    let Some(time) = time_of_drain(board, cells, fifo, horizon, edge) else {
        return Look::Nothing;
    };
    fill_until(board, cells, time);
    // The board tells what holds of each expansion: its times are in order and within the horizon.
    shows(&board.place());
    match board.next_time() {
        None => Look::Drains(time),
        Some(next) => if next <= time {
            Look::Overflows(next)
        } else {
            Look::Drains(time)
        },
    }
}
