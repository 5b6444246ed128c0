// The conversions of a command whose board hands each over when it is made.
ghost use Rattle.std.specs.Prelude.{◌≡◌, IfOk};
ghost use Rattle.cm_expand.specs.Taking.{NeverFalls};

use crate::handing::HandsOver;
use cm_base::prover::shows;
use cm_base::transfer::NoMemory;
use cm_expand::board::Board;
use cm_expand::conv::Conv;
use cm_expand::plan::Plan;
use std::alloc::Global;
use std::marker::Model;

/// A board as the list of the conversions that it has left.
#[derive(Drop)]
pub struct Direct<'a> {
    board: Board<'a>,
    edge: Option<u64>,
}

impl<'a> Model for Direct<'a> {
    ghost use Rattle.cm_running.specs.ToCome.{ToCome};

    ghost Value = { ToCome };

    ghost use Rattle.cm_running.specs.DirectView.{to_give, IsAhead};

    ghost view = { to_give };

    ghost invariant = { IsAhead };
}

impl<'a> Direct<'a> {
    ghost use Rattle.cm_expand.specs.Items.{items_of};
    ghost use Rattle.cm_expand.specs.PlanView.{plan_text};
    ghost use Rattle.cm_running.specs.DirectView.{all_of};

    /// Before the first conversion.
    pub fn new(alloc: Global, plan: Plan<'a>) -> Result<Direct<'a>, NoMemory>
        requires { NeverFalls (items_of (plan_text plan)) }
        ensures { IfOk result (λ board. board ≡ all_of (plan_text plan.entry)) }
    {
        Ok(Direct {
            board: Board::with_items(alloc, plan)?,
            edge: plan.stop_edge(),
        })
    }
}

impl<'a> HandsOver for Direct<'a> {
    ghost ahead = { λ board. board };

    #[inline(always)]
    fn next_time(&mut self) -> Option<u64> {
        self.board.next_time()
    }

    fn next_by(&mut self, time: u64) -> Option<Conv> {
        match self.board.next_time() {
            Some(next) if next <= time => self.board.next(),
            _ => None,
        }
    }

    #[inline(always)]
    fn take_by(&mut self, time: u64, out: &mut [u32]) -> usize {
        self.board.take_by(time, out)
    }

    fn stop_edge(&self) -> Option<u64> {
        self.edge
    }

    fn lost_at(&self) -> Option<u64> {
        // This read shows what such a board stands for.
        shows(&self.board);
        None
    }

    fn is_complete(&self) -> bool {
        self.board.complete()
    }
}
