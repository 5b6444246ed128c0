// A whole loop.
ghost use Rattle.std.specs.Prelude.{◌≡◌, ◌≤◌, take, IfOk};
ghost use Rattle.cm_expand.specs.Totals.{length_of};
ghost use Rattle.cm_text.specs.Blocks as blocks;
ghost use Rattle.cm_job.specs.LoopJob.{input_of, output_of};
ghost use Rattle.cm_loop.specs.LoopText as spec;

use crate::filter::filter_of;
use crate::looped::Looped;
use crate::rings::{LoopSide, stream_loop};
use crate::rule::LoopRule;
use crate::side::FilterSide;
use crate::state::LoopState;
use crate::text::text_of;
use cm_base::gate::Gate;
use cm_base::prover::shows;
use cm_base::transfer::NoMemory;
use cm_client::client::{ClientSide, Reads};
use cm_client::opening::{PacedRing, open_paced};
use cm_client::streaming::BASE;
use cm_expand::board::Board;
use cm_expand::rule::rule_of;
use cm_job::loop_job::LoopJob;
use cm_ring::open::open;
use cm_text::blocks::Blocks;
use cm_text::ending::count_of;
use std::alloc::Global;
use std::sync::Wait;
use std::thread::Threads;

// How many words the output's client takes, where there are more samples than conversions of the
// output.
fn take_of(samples: u64, outputs: u64) -> Option<u64>
    ensures { result ≡ spec.take_of samples outputs }
{
    if outputs < samples {
        Some(outputs)
    } else {
        None
    }
}

// How the output's client reads, where the input has so many samples and the output so many conversions.
fn reads_of(samples: u64, outputs: u64) -> Reads
    ensures { result.take ≡ spec.take_of samples outputs }
{
    Reads {
        by_map: false,
        take: take_of(samples, outputs),
    }
}

// What comes out of the output's ring, where the input has so many samples.
fn loop_words<R: Threads + Wait + Sync, G: Gate + Sync>(
    rt: &R,
    alloc: Global,
    job: &LoopJob,
    filter: &LoopRule,
    samples: u64,
    gate: &G,
) -> Result<Vec<u32>, NoMemory>
    requires filter { filter.now ≡ spec.filter_of job.now }
    requires samples { samples ≡ length_of (input_of job.now) }
    ensures { IfOk result (λ v. v.items ≡ take (length_of (output_of job.now)) (blocks.munged_words (output_of job.now) (spec.loop_words job.now))) }
{
    let input = job.input_plan();
    let output = job.output_plan();
    // The board tells what holds of each expansion: that the samples are codes of their channels.
    let place = Board::new(input).place();
    shows(&place);
    let munge = rule_of(alloc, input.sub(), &job.input)?;
    let looped = Looped::new(input, &munge, filter);
    let state = LoopState::new(alloc, filter)?;
    let rule = rule_of(alloc, output.sub(), &job.output)?;
    let PacedRing {
        board,
        munger,
        reader,
    } = open_paced(alloc, input, &job.input)?;
    let (writer, out_munger, out_reader) = open(
        alloc,
        output.sub().buffer,
        rule,
        true,
        BASE,
        looped,
    )?;
    let side = LoopSide {
        munger,
        filter: FilterSide::new(reader, writer, filter, state),
        client: ClientSide {
            munger: out_munger,
            reader: out_reader,
        },
    };
    let outputs = count_of(&output);
    let words = Vec::with_capacity(alloc, samples.min(outputs) as usize)?;
    let reads = reads_of(samples, outputs);
    match stream_loop(rt, board, side, words, reads, gate)? {
        Ok(streamed) => Ok(streamed.samples),
        Err(_) => Err(NoMemory),
    }
}

/// Runs the loop of a job, and gives its text, after all threads have ended: the filtered samples of
/// the input at the times of the output's conversions, and the end line.
pub fn loop_job<R: Threads + Wait + Sync, G: Gate + Sync>(
    rt: &R,
    alloc: Global,
    job: &LoopJob,
    gate: &G,
) -> Result<Blocks, NoMemory>
    ensures { IfOk result (λ text. text ≡ spec.loop_text job.now) }
{
    let filter = filter_of(alloc, job)?;
    let samples = count_of(&job.input_plan());
    let words = loop_words(rt, alloc, job, &filter, samples, gate)?;
    text_of(rt, alloc, job, &words, samples)
}
