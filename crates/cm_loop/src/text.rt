// The text of a loop, which several threads make.
ghost use Rattle.std.specs.Prelude.{◌≡◌, ◌<◌, ◌≤◌, ◌++◌, [], drop, length, take, IfOk, MatchOption};
ghost use Rattle.std.specs.Thread.{IsSync};
ghost use Rattle.cm_job.specs.LoopJob.{input_of, output_of};
ghost use Rattle.cm_expand.specs.Items.{items_of};
ghost use Rattle.cm_expand.specs.Taking.{left_of};
ghost use Rattle.cm_loop.specs.LoopText as spec;
ghost use Rattle.cm_loop.specs.Parts.{IsCutInTwo, lines_from, lines_of};
ghost use Rattle.cm_expand.specs.Totals.{length_of};
ghost use Rattle.cm_text.specs.Blocks as blocks;

use cm_base::transfer::NoMemory;
use cm_expand::board::Board;
use cm_job::loop_job::LoopJob;
use cm_text::blocks::Blocks;
use cm_text::ending::board_after;
use cm_text::output_block::{part_block, tail_block};
use std::alloc::Global;
use std::thread::{Threads, join};

// A thread makes the lines of about so many outputs.
const PART: usize = 262_144;

// The most parts, of which the last has a tenth of the first.
const MANY: usize = 10;

// A board of a loop's output at a place.
#[tactic(auto, using(cm_text::proofs::Outs::left_after))]
fn board_at(job: &LoopJob, place: u64) -> Board<'_>
    ensures { left_of result ≡ drop place (items_of (output_of job.now)) }
{
    board_after(job.output_plan(), place)
}

// The lines of the outputs from a place on that have a word.
fn part_text(
    alloc: Global,
    sub: u32,
    job: &LoopJob,
    from: u64,
    words: &[u32],
) -> Result<Vec<u8>, NoMemory>
    ensures { IfOk result (λ part. part.items ≡ lines_from sub job.now from words.now) }
{
    part_block(alloc, sub, board_at(job, from), words)
}

// How many of some words the last of so many parts has, one at least. A thread walks past the outputs
// before its part, so each part is shorter than the one before it: by a tenth of the first.
fn last_part(count: usize, parts: usize) -> usize
    requires { 0 < count }
    ensures some { 0 < result }
    ensures within { result ≤ count }
{
    if parts <= 1 {
        return count;
    }
    let parts = parts.min(MANY);
    let tenths = parts * (2 * MANY + 1 - parts) / 2;
    (count / tenths * (MANY + 1 - parts)).clamp(1, count)
}

// Cuts off the last of so many parts of some words. None comes exactly where there are no words.
fn cut(words: &[u32], parts: usize) -> Option<(&[u32], &[u32])>
    ensures { MatchOption result (words.now ≡ []) (λ t. IsCutInTwo words.now t.0.now t.1.now) }
{
    if words.is_empty() {
        return None;
    }
    let last = last_part(words.len(), parts);
    Some(words.split_at(words.len() - last))
}

// The lines of the outputs that have a word, in so many parts, each made by a thread.
fn text_up_to<R: Threads + Sync>(
    rt: &R,
    alloc: Global,
    sub: u32,
    job: &LoopJob,
    words: &[u32],
    parts: usize,
) -> Result<Blocks, NoMemory>
    ensures { IfOk result (λ text. text ≡ lines_of sub job.now words.now) }
{
    let Some((before, last)) = cut(words, parts) else {
        return Ok(Blocks::new(alloc));
    };
    let from = before.len() as u64;
    let (part, text) = join(
        rt,
        move || -> Result<Vec<u8>, NoMemory>
            ensures { IfOk result (λ part. part.items ≡ lines_from sub job.entry.now from last.entry.now) }
        { part_text(alloc, sub, job, from, last) },
        move || -> Result<Blocks, NoMemory>
            requires { IsSync R.row }
            ensures { IfOk result (λ text. text ≡ lines_of sub job.entry.now before.entry.now) }
        { text_up_to(rt, alloc, sub, job, before, parts.saturating_sub(1)) },
    );
    text?.with(part?)
}

/// The text of a loop of which these words came out, where the input has so many samples.
pub(crate) fn text_of<R: Threads + Sync>(
    rt: &R,
    alloc: Global,
    job: &LoopJob,
    words: &[u32],
    samples: u64,
) -> Result<Blocks, NoMemory>
    requires words { words.now ≡ take (length_of (output_of job.now)) (blocks.munged_words (output_of job.now) (spec.loop_words job.now)) }
    requires samples { samples ≡ length_of (input_of job.now) }
    ensures { IfOk result (λ text. text ≡ spec.loop_text job.now) }
{
    let sub = job.output.cmd().sub;
    let parts = words.len().div_ceil(PART);
    let text = text_up_to(rt, alloc, sub, job, words, parts)?;
    text.with(tail_block(alloc, job.output_plan(), samples)?)
}
