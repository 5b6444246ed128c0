// A look ahead at when what is planned for a command comes.
ghost use Rattle.std.specs.Prelude.{◌≡◌, [], length, take, drop};
ghost use Rattle.cm_expand.specs.Taking.{come};
ghost use Rattle.cm_running.specs.Awaiting.{last_after, quiet_after};

use crate::handing::HandsOver;
use crate::pending::Pending;
use cm_base::transfer::NoMemory;
use cm_expand::plan::Plan;
use std::alloc::Global;
use std::marker::Model;

/// A look ahead over all that reaches the buffer of a command, which goes on from where it stands: looks
/// at later and later places step after each conversion once.
#[derive(Drop)]
pub struct LookAhead<'a> {
    plan: Plan<'a>,
    pending: Pending<'a>,
    passed: u64,
    last: u64,
}

impl<'a> Model for LookAhead<'a> {
    ghost use Rattle.cm_running.specs.LookAheadView.{Look};

    ghost Value = { Look };

    ghost use Rattle.cm_running.specs.LookAheadView.{look_of, IsLook};

    ghost view = { look_of };

    ghost invariant = { IsLook };
}

impl<'a> LookAhead<'a> {
    ghost use Rattle.std.specs.Prelude.{◌≡◌, ◌≤◌, min, slice_get, IfOk, OnOk};
    ghost use Rattle.cm_expand.specs.PlanView.{plan_text};
    ghost use Rattle.cm_fifo.specs.Handed.{time_or};
    ghost use Rattle.cm_running.specs.Awaiting.{quiet_time};
    ghost use Rattle.cm_running.specs.Planned.{IsSchedule};
    ghost use Rattle.cm_running.specs.Schedules.{schedule_of};

    /// Before the first conversion.
    pub fn new(alloc: Global, plan: Plan<'a>) -> Result<LookAhead<'a>, NoMemory>
        requires { IsSchedule (schedule_of (plan_text plan)) }
        ensures { IfOk result (λ look. look ≡ record { schedule = schedule_of (plan_text plan.entry); passed = 0 }) }
    {
        Ok(LookAhead {
            plan,
            pending: Pending::new(alloc, plan)?,
            passed: 0,
            last: 0,
        })
    }

    // Stands at a place or before it: it starts anew where it is after it.
    fn turn_to(&mut self, alloc: Global, place: u64) -> Result<(), NoMemory>
        ensures same { self.new.schedule ≡ self.old.schedule }
        ensures before { OnOk result (self.new.passed ≤ place) }
    {
        if self.passed > place {
            self.pending = Pending::new(alloc, self.plan)?;
            self.passed = 0;
            self.last = 0;
        }
        Ok(())
    }

    /// When the conversion at a place reaches the buffer, or where there is none, when the command ends
    /// that has had all others, by the horizon.
    pub fn time_at(&mut self, alloc: Global, place: u64) -> Result<u64, NoMemory>
        ensures same { self.new.schedule ≡ self.old.schedule }
        ensures time { IfOk result (λ time. time ≡ min self.old.schedule.horizon (time_or (quiet_time self.old.schedule) (slice_get self.old.schedule.arrivals place))) }
    {
        self.turn_to(alloc, place)?;
        Ok(self.go_to(place))
    }

    // The same where it stands at the place or before it.
    fn go_to(&mut self, place: u64) -> u64
        requires { self.old.passed ≤ place }
        ensures same { self.new.schedule ≡ self.old.schedule }
        ensures time { result ≡ min self.old.schedule.horizon (time_or (quiet_time self.old.schedule) (slice_get self.old.schedule.arrivals place)) }
    {
        let horizon = self.plan.horizon();
        let count = place - self.passed;
        self.last = pass(&mut self.pending, self.last, count, horizon);
        self.passed = place;
        match self.pending.next_time() {
            Some(time) => horizon.min(time),
            None => horizon.min(quiet_after(&self.pending, self.last, horizon)),
        }
    }
}

// Steps after so many conversions, or all that are left, and reports when the last of them came, where
// one before them came last.
fn pass(pending: &mut Pending<'_>, before: u64, count: u64, horizon: u64) -> u64
    requires { come horizon pending.old.conversions ≡ length pending.old.conversions }
    ensures last { result ≡ last_after before (take count pending.old.conversions) }
    ensures after { pending.new ≡ record pending.old { conversions = drop count pending.old.conversions } }
{
    let mut last = before;
    let mut passed = 0;
    while passed < count {
        let Some(conversion) = pending.next_by(horizon) else {
            break;
        };
        last = conversion.time;
        passed += 1;
    }
    last
}

// When a command ends of which nothing is to come, after the last that came.
fn quiet_after(pending: &Pending<'_>, last: u64, horizon: u64) -> u64
    requires { pending.now.conversions ≡ [] }
    ensures { result ≡ quiet_after pending.now last horizon }
{
    match pending.lost_at() {
        Some(lost) => lost,
        None => {
            if pending.is_complete() {
                last.max(pending.stop_edge().unwrap_or(0))
            } else {
                horizon
            }
        }
    }
}
