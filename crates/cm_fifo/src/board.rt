// A board with a FIFO of its own.
use crate::filling::Cells;
use crate::requests::{Look, look_ahead};
use circular_buffer::HeapCircularBuffer;
use cm_base::prover::shows;
use cm_base::transfer::NoMemory;
use cm_board::board::Fifo;
use cm_expand::board::Board;
use cm_expand::conv::Conv;
use cm_expand::plan::Plan;
use std::alloc::Global;
use std::marker::Model;

/// What a step came to.
#[derive(Clone, Copy, Debug, PartialEq, Eq)]
pub enum FifoStep {
    /// Nothing comes up to the time.
    Idle,
    /// So many conversions are handed over at a time.
    Drained { time: u64, count: u32 },
    /// At a time the conversion of a place finds the FIFO full. All that it holds is handed over, and
    /// nothing comes any more.
    Overflow { time: u64, place: u64 },
}

/// The modelled board of one command, which collects conversions in a FIFO and hands them over some
/// time after it is half full.
#[derive(Drop)]
pub struct FifoBoard<'a> {
    board: Board<'a>,
    cells: Cells,
    fifo: Fifo,
    horizon: u64,
    edge: Option<u64>,
    drains: u64,
    is_ready: bool,
    is_over: bool,
}

impl<'a> Model for FifoBoard<'a> {
    ghost use Rattle.cm_fifo.specs.State.{FifoState};

    ghost Value = { FifoState };

    ghost use Rattle.cm_fifo.specs.StateView.{fifo_state, IsSoundState};

    ghost view = { fifo_state };

    ghost invariant = { IsSoundState };
}

impl<'a> FifoBoard<'a> {
    ghost use Rattle.std.specs.Prelude.{◌≡◌, ◌+◌, ◌-◌, ◌<◌, ◌≤◌, length, slice_get, Some, false, IfOk, IfSome, IfNone};
    ghost use Rattle.cm_expand.specs.Items.{items_of};
    ghost use Rattle.cm_expand.specs.Plan.{is_complete};
    ghost use Rattle.cm_expand.specs.PlanView.{plan_text};
    ghost use Rattle.cm_fifo.specs.State.{HasGone, IsSoundFifo, next_of, time_of};

    /// Stands before the first conversion. It makes the room for all that the FIFO can hold, and no
    /// later call takes memory.
    pub fn new(alloc: Global, plan: Plan<'a>, fifo: Fifo) -> Result<FifoBoard<'a>, NoMemory>
        requires { (2 ≤ fifo.depth) × (fifo.depth ≤ 4096) }
        ensures { IfOk result (λ b. b ≡ record { plan = plan_text plan.entry; fifo = fifo; drains = 0; taken = 0; ready = 0; over = false }) }
    {
        let horizon = plan.horizon();
        let edge = plan.stop_edge();
        let board = Board::with_items(alloc, plan)?;
        let cells = HeapCircularBuffer::with_capacity(alloc, fifo.depth as usize)?;
        Ok(FifoBoard {
            board,
            cells,
            fifo,
            horizon,
            edge,
            drains: 0,
            is_ready: false,
            is_over: false,
        })
    }

    /// Goes to the next drain or overflow with a time at most `to`. Idle comes exactly where there is
    /// none, and then nothing has changed.
    pub fn step(&mut self, to: u64) -> FifoStep
        requires { self.old.ready ≡ 0 }
        ensures { HasGone result to self.old self.new }
    {
        if self.is_over {
            return FifoStep::Idle;
        }
        self.is_ready = false;
        let next = look_ahead(
            &mut self.board,
            &mut self.cells,
            &self.fifo,
            self.horizon,
            self.edge,
        );
        match next {
            Look::Nothing => FifoStep::Idle,
            Look::Drains(time) => {
                if to < time {
                    return FifoStep::Idle;
                }
                // The board tells what holds of each expansion, and where it is in this one.
                shows(&self.board.place());
                self.is_ready = true;
                self.drains += 1;
                let count = self.cells.len() as u32;
                FifoStep::Drained { time, count }
            }
            Look::Overflows(time) => {
                if to < time {
                    return FifoStep::Idle;
                }
                self.is_ready = true;
                self.is_over = true;
                let place = self.board.place();
                FifoStep::Overflow { time, place }
            }
        }
    }

    /// When the next drain or overflow comes. None comes exactly where there is none.
    pub fn next_time(&mut self) -> Option<u64>
        requires { self.old.ready ≡ 0 }
        ensures time { result ≡ time_of (next_of self.old) }
        ensures same { self.new ≡ self.old }
    {
        if self.is_over {
            return None;
        }
        self.is_ready = false;
        let next = look_ahead(
            &mut self.board,
            &mut self.cells,
            &self.fifo,
            self.horizon,
            self.edge,
        );
        match next {
            Look::Nothing => None,
            Look::Drains(time) => Some(time),
            Look::Overflows(time) => Some(time),
        }
    }

    /// The next conversion of those that are ready, with its own time. None comes exactly where none
    /// is ready, and then nothing has changed.
    pub fn take(&mut self) -> Option<Conv>
        ensures none { IfNone result ((self.old.ready ≡ 0) × (self.new ≡ self.old)) }
        ensures some { IfSome result (λ conv. (0 < self.old.ready) × (slice_get (items_of self.old.plan) self.old.taken ≡ Some conv)
            × (self.new ≡ record self.old { taken = self.old.taken + 1; ready = self.old.ready - 1 })) }
    {
        if !self.is_ready {
            return None;
        }
        self.cells.pop_front()
    }

    /// How many conversions are ready.
    pub fn ready(&self) -> u32
        ensures ready { result ≡ self.entry.now.ready }
        ensures sound { IsSoundFifo self.entry.now }
    {
        // The board tells what holds of each expansion, and where it is in this one.
        shows(&self.board.place());
        if self.is_ready {
            self.cells.len() as u32
        } else {
            0
        }
    }

    /// Whether the expansion, all of which was taken, has all conversions that the command is to make
    /// until it stops.
    pub fn is_complete(&self) -> bool
        requires { self.now.taken ≡ length (items_of self.now.plan) }
        ensures { result ≡ is_complete self.entry.now.plan }
    {
        self.board.complete()
    }

    /// Whether a conversion was lost.
    pub fn is_over(&self) -> bool
        ensures { result ≡ self.entry.now.over }
    {
        self.is_over
    }
}
