// Conversions on their way from a board into a FIFO.
ghost use Rattle.std.specs.Prelude.{◌≡◌, ◌<◌, ◌≤◌, ◌⊎◌, length, slice_get, true, false, Some, None, IfSome, IfNone};
ghost use Rattle.cm_expand.specs.Items.{items_of};
ghost use Rattle.cm_expand.specs.Taking.{come, left_of};
ghost use Rattle.cm_fifo.specs.Held.{ahead, IsHeld, TookNone, TookOne};

use circular_buffer::HeapCircularBuffer;
use cm_base::prover::shows;
use cm_expand::board::Board;
use cm_expand::conv::Conv;
use std::alloc::Global;

/// Room for the conversions that a FIFO holds.
pub type Cells = HeapCircularBuffer<Conv, Global>;

// The next conversion goes into the FIFO.
fn take_one(board: &mut Board<'_>, cells: &mut Cells) -> Option<Conv>
    requires { length cells.old.items < cells.old.capacity }
    ensures some { IfSome result (λ conv. TookOne conv board.old board.new cells.old cells.new) }
    ensures none { IfNone result (TookNone board.old board.new cells.old cells.new) }
{
    let conv = board.next()?;
    match cells.try_push_back(conv) {
        Ok(()) => Some(conv),
        Err(_) => unreachable!(),
    }
}

/// Conversions go into the FIFO until it is half full, or all were given.
pub fn fill_half(board: &mut Board<'_>, cells: &mut Cells, half: usize)
    requires held { IsHeld board.old cells.old.items }
    requires room { half ≤ cells.old.capacity }
    ensures held { IsHeld board.new cells.new.items }
    ensures same { ahead board.new cells.new.items ≡ ahead board.old cells.old.items }
    ensures plan { board.new.plan ≡ board.old.plan }
    ensures room { cells.new.capacity ≡ cells.old.capacity }
    ensures few { (cells.new.items ≡ cells.old.items) ⊎ (length cells.new.items ≤ half) }
    ensures enough { (half ≤ length cells.new.items) ⊎ (slice_get (items_of board.new.plan) board.new.place ≡ None) }
{
    while cells.len() < half {
        match take_one(board, cells) {
            None => break,
            Some(_conv) => {}
        }
    }
}

/// Conversions that have come by a time go into the FIFO while there is room.
pub fn fill_until(board: &mut Board<'_>, cells: &mut Cells, time: u64)
    requires held { IsHeld board.old cells.old.items }
    requires few { length cells.old.items ≤ cells.old.capacity }
    requires come { come time cells.old.items ≡ length cells.old.items }
    ensures held { IsHeld board.new cells.new.items }
    ensures same { ahead board.new cells.new.items ≡ ahead board.old cells.old.items }
    ensures plan { board.new.plan ≡ board.old.plan }
    ensures room { cells.new.capacity ≡ cells.old.capacity }
    ensures few { length cells.new.items ≤ cells.new.capacity }
    ensures grown { length cells.old.items ≤ length cells.new.items }
    ensures come { come time cells.new.items ≡ length cells.new.items }
    ensures all { (length cells.new.items ≡ cells.new.capacity) ⊎ (come time (left_of board.new) ≡ 0) }
{
    while !cells.is_full() {
        if !has_come(board, time) {
            break;
        }
        match take_one(board, cells) {
            None => break,
            Some(_conv) => {}
        }
    }
}

// Whether the next conversion has come by a time.
fn has_come(board: &Board<'_>, time: u64) -> bool
    ensures yes { result ≡ true → (c : Conv) → slice_get (items_of board.entry.now.plan) board.entry.now.place ≡ Some c → c.time ≤ time }
    ensures no { result ≡ false → come time (left_of board.entry.now) ≡ 0 }
{
    // The board tells what holds of each expansion: its times are in order and within the horizon.
    shows(&board.place());
    match board.next_time() {
        None => false,
        Some(next) => next <= time,
    }
}
