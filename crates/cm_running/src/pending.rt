// The conversions of a command that are still to come.
ghost use Rattle.std.specs.Prelude.{◌≡◌, IfOk};
ghost use Rattle.cm_expand.specs.Taking.{NeverFalls};

use crate::delayed::Delayed;
use crate::direct::Direct;
use crate::handing::HandsOver;
use cm_base::transfer::NoMemory;
use cm_expand::conv::Conv;
use cm_expand::plan::Plan;
use std::alloc::Global;
use std::marker::Model;

/// What hands the conversions of a command over: its board, with a FIFO or without one.
#[derive(Drop)]
pub enum Feed<'a> {
    Direct(Direct<'a>),
    Delayed(Delayed<'a>),
}

/// The conversions of a command that are still to come, each at the time at which it reaches the
/// buffer.
#[derive(Drop)]
pub struct Pending<'a> {
    feed: Feed<'a>,
}

impl<'a> Model for Pending<'a> {
    ghost use Rattle.cm_running.specs.ToCome.{ToCome};

    ghost Value = { ToCome };

    ghost use Rattle.cm_running.specs.PendingView.{to_come};

    ghost view = { to_come };
}

impl<'a> Pending<'a> {
    ghost use Rattle.cm_expand.specs.PlanView.{plan_text};
    ghost use Rattle.cm_running.specs.Schedules.{schedule_of};
    ghost use Rattle.cm_running.specs.ToCome.{all_to_come};

    /// Before the first conversion.
    pub fn new(alloc: Global, plan: Plan<'a>) -> Result<Pending<'a>, NoMemory>
        requires { NeverFalls (schedule_of (plan_text plan)).arrivals }
        ensures { IfOk result (λ pending. pending ≡ all_to_come (schedule_of (plan_text plan.entry))) }
    {
        let sub = plan.sub();
        let feed = match sub.fifo {
            None => Feed::Direct(Direct::new(alloc, plan)?),
            Some(fifo) => Feed::Delayed(Delayed::new(alloc, plan, fifo)?),
        };
        Ok(Pending { feed })
    }
}

impl<'a> HandsOver for Pending<'a> {
    ghost ahead = { λ pending. pending };

    #[inline(always)]
    fn next_time(&mut self) -> Option<u64> {
        match &mut self.feed {
            Feed::Direct(board) => board.next_time(),
            Feed::Delayed(board) => board.next_time(),
        }
    }

    fn next_by(&mut self, time: u64) -> Option<Conv> {
        match &mut self.feed {
            Feed::Direct(board) => board.next_by(time),
            Feed::Delayed(board) => board.next_by(time),
        }
    }

    #[inline(always)]
    fn take_by(&mut self, time: u64, out: &mut [u32]) -> usize {
        match &mut self.feed {
            Feed::Direct(board) => board.take_by(time, out),
            Feed::Delayed(board) => board.take_by(time, out),
        }
    }

    fn stop_edge(&self) -> Option<u64> {
        match &self.feed {
            Feed::Direct(board) => board.stop_edge(),
            Feed::Delayed(board) => board.stop_edge(),
        }
    }

    fn lost_at(&self) -> Option<u64> {
        match &self.feed {
            Feed::Direct(board) => board.lost_at(),
            Feed::Delayed(board) => board.lost_at(),
        }
    }

    fn is_complete(&self) -> bool {
        match &self.feed {
            Feed::Direct(board) => board.is_complete(),
            Feed::Delayed(board) => board.is_complete(),
        }
    }
}
