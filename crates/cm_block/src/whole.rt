// The blocks of lines that take all samples.
ghost use Rattle.std.specs.Prelude.{◌≡◌, ◌<◌, length, slice_get, IfOk, IfSome};
ghost use Rattle.cm_block.specs.Going.{AcceptsSamples};
ghost use Rattle.cm_block.specs.RunText.{line_block};
ghost use Rattle.cm_text.specs.SampleText.{CanReport, no_lines};
ghost use Rattle.cm_block.specs.Whole.{HasWhole, IsWhole, TakesAll, line_format};
ghost use Rattle.cm_job.specs.Calls as calls;
ghost use Rattle.cm_job.specs.RunLines.{CanRun};

use crate::going::{go_of, text_of, with_end};
use cm_base::transfer::NoMemory;
use cm_board::board::BoardDesc;
use cm_job::job::RunJob;
use cm_job::line::RunLine;
use cm_ring_core::view::End;
use cm_signal::signals::Signals;
use cm_text::sample_text::SampleText;
use std::alloc::Global;

/// The block of the `go` line at this place of a job, which takes all samples: `words` are all of
/// them after the munge, and `end` is the end that their ring's reader found.
pub fn block_text(
    alloc: Global,
    job: &RunJob,
    index: u32,
    words: &[u32],
    end: &End,
) -> Result<Vec<u8>, NoMemory>
    requires index { index < length job.now.lines }
    requires whole { IfSome (slice_get job.now.lines index) (λ line. IsWhole job.now.board job.now.signals line words.now end.now) }
    ensures { IfSome (slice_get job.now.lines index) (λ line. IfOk result (λ text. text.items ≡ line_block job.now.board job.now.signals line)) }
{
    let line = &job.lines[index as usize];
    whole_block(alloc, &job.board, &job.signals, line, words, *end)
}

// The block of such a line.
fn whole_block(
    alloc: Global,
    board: &BoardDesc,
    signals: &Signals,
    line: &RunLine,
    words: &[u32],
    end: End,
) -> Result<Vec<u8>, NoMemory>
    requires run { CanRun board.now signals.now line.now }
    requires whole { IsWhole board.now signals.now line.now words.now end }
    ensures { IfOk result (λ text. text.items ≡ line_block board.now signals.now line.now) }
{
    let mut lines = text_for(alloc, board, signals, line)?;
    lines.put(words)?;
    block_of(board, signals, line, lines, end)
}

/// The lines of the samples of a line that takes all, before the first.
#[tactic(auto, using(crate::proofs::Wholes::reads))]
pub fn text_for<'a>(
    alloc: Global,
    board: &'a BoardDesc,
    signals: &'a Signals,
    line: &'a RunLine,
) -> Result<SampleText<'a>, NoMemory>
    requires run { CanRun board.now signals.now line.now }
    requires all { TakesAll line.now }
    ensures new { IfOk result (λ t. t ≡ no_lines (line_format board.entry.now signals.entry.now line.entry.now)) }
    ensures accepts { IfOk result (λ t. AcceptsSamples (CanReport t) (calls.plan_of board.entry.now signals.entry.now line.entry.now)) }
{
    text_of(alloc, go_of(board, signals, line))
}

/// The block of a line that takes all samples, whose lines are made.
#[tactic(auto, using(crate::proofs::Wholes::reads))]
pub fn block_of(
    board: &BoardDesc,
    signals: &Signals,
    line: &RunLine,
    lines: SampleText<'_>,
    end: End,
) -> Result<Vec<u8>, NoMemory>
    requires run { CanRun board.now signals.now line.now }
    requires whole { HasWhole board.now signals.now line.now lines end }
    ensures { IfOk result (λ text. text.items ≡ line_block board.now signals.now line.now) }
{
    with_end(go_of(board, signals, line), lines, end)
}
