// How the block of a line ends.
ghost use Rattle.std.specs.Prelude.{◌≡◌, ◌≤◌, min, length};
ghost use Rattle.cm_expand.specs.PlanView.{plan_text};
ghost use Rattle.cm_expand.specs.Plan as plans;
ghost use Rattle.cm_expand.specs.Totals.{length_of};
ghost use Rattle.cm_text.specs.Blocks as blocks;
ghost use Rattle.cm_text.specs.Ends as ends;
ghost use Rattle.cm_text.specs.Limits.{FitsCount};

use crate::tail::Tail;
use cm_expand::board::Board;
use cm_expand::plan::Plan;
use cm_ring_core::view::{End, EndKind};

// More conversions than any line has.
const MANY: u64 = 4_000_000;

/// How many conversions a line's command has.
pub fn count_of(plan: &Plan<'_>) -> u64
    requires { length_of (plan_text plan.now) ≤ 4000000 }
    ensures { result ≡ length_of (plan_text plan.now) }
{
    match plan.count(MANY) {
        Ok(count) => count,
        Err(_) => MANY,
    }
}

/// A board that has passed so many conversions of a plan, or all where there are fewer.
pub fn board_after<'a>(plan: Plan<'a>, count: u64) -> Board<'a>
    ensures plan { result.plan ≡ plan_text plan.entry }
    ensures place { result.place ≡ min count (length_of (plan_text plan.entry)) }
{
    let mut board = Board::new(plan);
    for _ in 0..count {
        board.pass();
    }
    board
}

/// The end line of a whole expansion, which has so many conversions.
pub fn ending(plan: Plan<'_>, count: u64) -> Tail
    requires { count ≡ length_of (plan_text plan) }
    ensures { result ≡ blocks.ending (plan_text plan.entry) }
{
    if is_complete(plan, count) {
        Tail::Done
    } else {
        Tail::Dry
    }
}

// Whether an expansion, which has so many conversions, is complete. Where the command has a stop
// count nothing has to be walked through.
#[tactic(auto, using(cm_expand::proofs::Counted::items_counted))]
fn is_complete(plan: Plan<'_>, count: u64) -> bool
    requires { count ≡ length_of (plan_text plan) }
    ensures { result ≡ plans.is_complete (plan_text plan.entry) }
{
    match plan.whole_count() {
        Some(whole) => count == whole,
        None => board_after(plan, count).complete(),
    }
}

fn tail_whole(plan: Plan<'_>, end: End) -> Tail
    requires many { length_of (plan_text plan) ≤ 4000000 }
    requires end { FitsCount (plan_text plan) end.kind end.count }
    ensures { result ≡ ends.tail_whole (plan_text plan.entry) end.kind end.count }
{
    match end.kind {
        EndKind::Overrun => Tail::Overrun(end.count),
        EndKind::Done => ending(plan, end.count),
        EndKind::Cancelled => ending(plan, count_of(&plan)),
    }
}

fn tail_cut(most: u64, end: End) -> Tail
    ensures { result ≡ ends.tail_cut most end.kind end.count }
{
    match end.kind {
        EndKind::Overrun => {
            if end.count < most {
                Tail::Overrun(end.count)
            } else {
                Tail::Taken(most)
            }
        }
        EndKind::Done => Tail::Taken(most),
        EndKind::Cancelled => Tail::Taken(most),
    }
}

/// The end line of a `go` line's block whose reader found an end.
pub fn tail_after(plan: Plan<'_>, take: Option<u64>, end: End) -> Tail
    requires many { length_of (plan_text plan) ≤ 4000000 }
    requires end { FitsCount (plan_text plan) end.kind end.count }
    ensures { result ≡ ends.tail_after (plan_text plan.entry) take end.kind end.count }
{
    match take {
        None => tail_whole(plan, end),
        Some(most) => {
            if most < count_of(&plan) {
                tail_cut(most, end)
            } else {
                tail_whole(plan, end)
            }
        }
    }
}
