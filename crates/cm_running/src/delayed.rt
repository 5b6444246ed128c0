// The conversions of a command whose board has a FIFO.
ghost use Rattle.std.specs.Prelude.{◌≡◌, ℕ, ◌≤◌, Option, IfOk};
ghost use Rattle.cm_expand.specs.Taking.{NeverFalls};
ghost use Rattle.cm_fifo.specs.State.{IsLater, next_of};
ghost use Rattle.cm_running.specs.DelayedView.{to_hand_over};

use crate::handing::HandsOver;
use cm_base::prover::shows;
use cm_base::transfer::NoMemory;
use cm_board::board::Fifo;
use cm_expand::conv::Conv;
use cm_expand::plan::Plan;
use cm_fifo::board::{FifoBoard, FifoStep};
use std::alloc::Global;
use std::marker::Model;

/// A board with a FIFO as the list of the conversions that it is still to hand over, each at the time
/// at which it does.
#[derive(Drop)]
pub struct Delayed<'a> {
    board: FifoBoard<'a>,
    at: u64,
    edge: Option<u64>,
}

impl<'a> Model for Delayed<'a> {
    ghost use Rattle.cm_running.specs.ToCome.{ToCome};

    ghost Value = { ToCome };

    ghost use Rattle.cm_running.specs.DelayedView.{to_hand, IsDelayed};

    ghost view = { to_hand };

    ghost invariant = { IsDelayed };
}

impl<'a> Delayed<'a> {
    ghost use Rattle.cm_expand.specs.PlanView.{plan_text};
    ghost use Rattle.cm_fifo.specs.Handed.{handed_of};
    ghost use Rattle.cm_running.specs.DelayedView.{all_handed};

    /// Before the first conversion.
    pub fn new(alloc: Global, plan: Plan<'a>, fifo: Fifo) -> Result<Delayed<'a>, NoMemory>
        requires low { 2 ≤ fifo.depth }
        requires high { fifo.depth ≤ 4096 }
        requires order { NeverFalls (handed_of (plan_text plan) fifo).arrivals }
        ensures { IfOk result (λ board. board ≡ all_handed (plan_text plan.entry) fifo) }
    {
        Ok(Delayed {
            board: FifoBoard::new(alloc, plan, fifo)?,
            at: 0,
            edge: plan.stop_edge(),
        })
    }
}

impl<'a> HandsOver for Delayed<'a> {
    ghost ahead = { λ board. board };

    fn next_time(&mut self) -> Option<u64> {
        if self.board.ready() > 0 {
            Some(self.at)
        } else {
            self.board.next_time()
        }
    }

    fn next_by(&mut self, time: u64) -> Option<Conv> {
        go_on(&mut self.board, &mut self.at, time);
        if self.board.ready() == 0 {
            return None;
        }
        if time < self.at {
            return None;
        }
        let conversion = self.board.take()?;
        Some(Conv {
            time: self.at,
            ..conversion
        })
    }

    fn take_by(&mut self, time: u64, out: &mut [u32]) -> usize {
        // This read shows what such a board stands for.
        shows(&self.board);
        let mut count = 0;
        while count < out.len() {
            let Some(conversion) = self.next_by(time) else {
                break;
            };
            out[count] = conversion.raw;
            count += 1;
        }
        count
    }

    fn stop_edge(&self) -> Option<u64> {
        self.edge
    }

    fn lost_at(&self) -> Option<u64> {
        // This call shows what each board with a FIFO keeps.
        self.board.ready();
        if self.board.is_over() {
            Some(self.at)
        } else {
            None
        }
    }

    fn is_complete(&self) -> bool {
        // This call shows what each board with a FIFO keeps.
        self.board.ready();
        self.board.is_complete()
    }
}

// Goes to the next drain or overflow, where nothing is ready and it comes by a time.
fn go_on(board: &mut FifoBoard<'_>, at: &mut u64, time: u64)
    ensures same { (edge : Option ℕ) → to_hand_over at.new board.new edge ≡ to_hand_over at.old board.old edge }
    ensures late { board.new.ready ≡ 0 → IsLater (next_of board.new) time }
{
    if board.ready() > 0 {
        return;
    }
    match board.step(time) {
        FifoStep::Idle => {}
        FifoStep::Drained { time: drained, .. } => *at = drained,
        FifoStep::Overflow { time: lost, .. } => *at = lost,
    }
}
