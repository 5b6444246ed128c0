// What a `go` line asks, the lines of its samples, and its block.
ghost use Rattle.std.specs.Prelude.{◌≡◌, ◌++◌, IfOk, None};
ghost use Rattle.cm_expand.specs.PlanView.{plan_text};
ghost use Rattle.cm_block.specs.Going.{AcceptsSamples, Asks, IsGo, IsGoLine};
ghost use Rattle.cm_block.specs.Whole.{TakesAll};
ghost use Rattle.cm_job.specs.Calls as calls;
ghost use Rattle.cm_job.specs.RunLines.{CanRun};
ghost use Rattle.cm_text.specs.Ends as ends;
ghost use Rattle.cm_text.specs.Limits.{FitsCount};
ghost use Rattle.cm_text.specs.SampleText.{CanReport, no_lines};
ghost use Rattle.cm_text.specs.Format.{format_of};
ghost use Rattle.cm_text.specs.Tails.{tail_text};

use cm_base::prover::shows;
use cm_base::transfer::NoMemory;
use cm_board::board::BoardDesc;
use cm_expand::board::Board;
use cm_expand::call::plan_of;
use cm_expand::plan::Plan;
use cm_job::line::{Access, Mode, RunLine};
use cm_ring_core::view::End;
use cm_signal::signals::Signals;
use cm_test::test::Accepted;
use cm_text::ending::tail_after;
use cm_text::sample_text::SampleText;
use cm_text::tail::put_tail;
use std::alloc::Global;

// How many samples a client makes ready for at most.
const MOST_ROOM: u64 = 4_000_000;

/// A `go` line: an input command with its plan, and what its client does.
#[derive(Clone, Copy)]
pub struct Go<'a> {
    pub plan: Plan<'a>,
    pub cmd: &'a Accepted,
    pub mode: Mode,
    pub access: Access,
    /// How many samples the client takes, or all.
    pub take: Option<u64>,
}

/// What a `go` line asks.
pub fn go_of<'a>(board: &'a BoardDesc, signals: &'a Signals, line: &'a RunLine) -> Go<'a>
    requires run { CanRun board.now signals.now line.now }
    requires reads { IsGoLine line.now }
    ensures go { IsGo (plan_text result.plan) result.cmd.now }
    ensures plan { plan_text result.plan ≡ calls.plan_of board.entry.now signals.entry.now line.entry.now }
    ensures asks { Asks line.entry.now result.mode result.access result.take }
    ensures all { TakesAll line.entry.now → result.take ≡ None }
{
    let plan = plan_of(board, signals, line);
    let RunLine::Go {
        mode,
        access,
        take,
        cmd,
        ..
    } = line
    else {
        unreachable!()
    };
    Go {
        plan,
        cmd,
        mode: *mode,
        access: *access,
        take: *take,
    }
}

// How many samples a client makes ready for: as many as the stop count says, and no more than it takes.
// Without a stop count it makes ready for none.
fn room_of(go: &Go<'_>) -> usize {
    let whole = go.plan.whole_count().unwrap_or(0);
    let taken = whole.min(go.take.unwrap_or(whole));
    taken.min(MOST_ROOM) as usize
}

/// The lines of the line's samples, before the first.
pub fn text_of<'a>(alloc: Global, go: Go<'a>) -> Result<SampleText<'a>, NoMemory>
    requires { IsGo (plan_text go.plan) go.cmd.now }
    ensures new { IfOk result (λ t. t ≡ no_lines (format_of (plan_text go.entry.plan))) }
    ensures accepts { IfOk result (λ t. AcceptsSamples (CanReport t) (plan_text go.entry.plan)) }
{
    // The board tells what holds of each expansion: that the words are codes of their channels.
    let place = Board::new(go.plan).place();
    shows(&place);
    SampleText::new(alloc, go.plan, room_of(&go))
}

/// The block of a line: the lines of its samples, and the line of the end that its reader found.
pub fn with_end(go: Go<'_>, lines: SampleText<'_>, end: End) -> Result<Vec<u8>, NoMemory>
    requires go { IsGo (plan_text go.plan) go.cmd.now }
    requires end { FitsCount (plan_text go.plan) end.kind end.count }
    ensures { IfOk result (λ v. v.items ≡ lines.entry.text ++ tail_text (ends.tail_after (plan_text go.entry.plan) go.entry.take end.kind end.count)) }
{
    let mut block = lines.into_text();
    put_tail(&mut block, tail_after(go.plan, go.take, end))?;
    Ok(block)
}
