// A timing with its next conversion.
ghost use Rattle.cm_expand.specs.Board.{IsBoard, progress_of};
ghost use Rattle.cm_expand.specs.PlanView.{plan_text};

use crate::plan::Plan;
use crate::timing::{Next, TimePoint, Timing};

/// A timing with its next conversion.
#[derive(Clone, Copy)]
pub struct Progress<'a> {
    pub timing: Timing<'a>,
    pub point: TimePoint,
}

/// The timing of a plan, and its first conversion.
pub fn begun<'a>(plan: &Plan<'a>) -> (Option<Timing<'a>>, Next)
    ensures { IsBoard (plan_text plan.now) 0 (progress_of result.0 result.1) }
{
    match plan.timing() {
        None => (None, Next::Done),
        Some(timing) => {
            let point = timing.first_point();
            (Some(timing), point)
        }
    }
}
