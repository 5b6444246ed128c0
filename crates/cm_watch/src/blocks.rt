// The blocks of watched lines.
ghost use Rattle.std.specs.Prelude.{◌≡◌, length, take, IfOk};
ghost use Rattle.std.specs.List.{All};
ghost use Rattle.cm_block.specs.RunText.{run_text};
ghost use Rattle.cm_job.specs.WatchLines.{IsWatched};
ghost use Rattle.cm_stream.specs.Stream.{IsOver};
ghost use Rattle.cm_watch.specs.Opened.{HaveWatched};
ghost use Rattle.cm_watch.specs.Whole.{AreEnds, AreWhole};

use crate::client::Watched;
use cm_base::transfer::NoMemory;
use cm_block::whole::block_of;
use cm_expand::plan::Plan;
use cm_job::job::RunJob;
use cm_ring_core::view::End;
use cm_sample::planned::Planned;
use cm_stream::merge::Merge;
use cm_text::blocks::Blocks;
use cm_text::sample_text::SampleText;
use std::alloc::Global;

// The ends of so many sources, all of which have ended.
fn ends_of<P: Planned>(alloc: Global, merge: &Merge<P>, count: u32) -> Result<Vec<End>, NoMemory>
    requires count { count ≡ length merge.now.streams }
    requires over { All IsOver merge.now.streams }
    ensures { IfOk result (λ ends. AreEnds merge.now.streams ends.items) }
{
    let mut ends = Vec::new(alloc);
    for i in 0..count {
        let Some(end) = merge.end_of(i) else {
            unreachable!()
        };
        ends.push(end)?;
    }
    Ok(ends)
}

/// The blocks of lines that were read to their ends.
pub(crate) fn blocks_of(
    alloc: Global,
    job: &RunJob,
    watched: Watched<'_, Plan<'_>>,
) -> Result<Blocks, NoMemory>
    requires watched { All (IsWatched job.now.board) job.now.lines }
    requires read { HaveWatched job.now.board job.now.signals job.now.lines watched.merge.streams watched.texts.items }
    ensures { IfOk result (λ text. text ≡ run_text job.now.board job.now.signals job.now.lines) }
{
    let Watched { texts, merge } = watched;
    let ends = ends_of(alloc, &merge, job.lines.len() as u32)?;
    blocks_up_to(alloc, job, texts, &ends)
}

// The blocks of the first lines, as many as there are texts.
fn blocks_up_to(
    alloc: Global,
    job: &RunJob,
    mut texts: Vec<SampleText<'_>>,
    ends: &[End],
) -> Result<Blocks, NoMemory>
    requires whole { AreWhole job.now texts.items ends.now }
    ensures { IfOk result (λ text. text ≡ run_text job.now.board job.now.signals (take (length texts.entry.items) job.now.lines)) }
{
    let Some(last) = texts.pop() else {
        return Ok(Blocks::new(alloc));
    };
    let at = texts.len();
    let block = block_of(&job.board, &job.signals, &job.lines[at], last, ends[at])?;
    blocks_up_to(alloc, job, texts, ends)?.with(block)
}
