// The filter between two rings.
ghost use Rattle.std.specs.Prelude.{◌≡◌, ◌+◌, ◌<◌, ◌≤◌, ◌^◌, true, false, [], length, min, slice_index, take, None, IfSome, IsTrue};
ghost use Rattle.cm_client.specs.Progress.{IsSameRing};
ghost use Rattle.cm_ring.specs.Samples.{munged_plan};
ghost use Rattle.cm_client.specs.Streamed.{EndsTruly, HeedsStop};
ghost use Rattle.cm_ring.specs.Roles.{IsReading};
ghost use Rattle.cm_ring_core.specs.Lawful.{first_reader, first_writer};
ghost use Rattle.cm_ring_core.specs.declared.view.EndKind.TheVariants.{Done};
ghost use Rattle.cm_loop.specs.Filter.{all_filtered, filtered, AreWithin};
ghost use Rattle.cm_loop.specs.State.{StandsFor};
ghost use Rattle.cm_loop.specs.Work.{HasFiltered, HasLooked, IsLoopEnd, IsSameInput, IsSameOutput, IsSameStream};

use crate::rule::LoopRule;
use crate::state::LoopState;
use cm_base::prover::shows;
use cm_ring::reader::Reader;
use cm_ring::writer::{Closed, Writer};
use cm_ring_core::view::EndKind;
use cm_sample::planned::Planned;
use crossbeam_utils::Backoff;
use std::sync::Wait;

// How many samples are filtered before they are released, and their outputs published.
const BLOCK: u32 = 64;

/// Filters every sample of a paced ring into another one, and ends that with `Done`. Where it sees a
/// stop at the output, it asks the input for the stop and ends the output with `Cancelled`.
pub fn loop_work<R: Wait + Sync, P: Planned, Q: Planned>(
    rt: &R,
    input: &mut Reader<P>,
    output: Writer<Q>,
    rule: &LoopRule,
    state: LoopState,
) -> Closed<Q>
    requires input { (input.old.part ≡ first_reader) × (input.old.mapped ≡ 0) × (input.old.ring.paced ≡ true) }
    requires output { (output.part ≡ first_writer) × (output.ring.paced ≡ true) }
    requires state { (state.rule ≡ rule.now) × StandsFor state [] }
    requires within { AreWithin rule.now (munged_plan input.old.ring) }
    requires plan { output.ring.samples ≡ all_filtered rule.now (munged_plan input.old.ring) }
    ensures of { (result.table ≡ output.table) × (result.ring ≡ output.ring) }
    ensures input { IsSameRing input.old input.new }
    ensures end { IsLoopEnd result.end input.new }
    ensures truly { EndsTruly result }
    ensures heeds { HeedsStop result }
{
    let backoff = Backoff::new();
    let mut output = output;
    let mut state = state;
    // An output that has found no room.
    let mut waiting = None;
    for _ in rt.forever() {
        if output.stop_asked() {
            input.ask_stop();
            return output.end(EndKind::Cancelled);
        }
        match waiting {
            Some(word) => {
                if output.put(word).is_ok() {
                    output.publish();
                    waiting = None;
                } else {
                    backoff.snooze();
                }
            }
            None => {
                let count = map_block(input);
                if count > 0 {
                    waiting = move_block(input, &mut output, rule, &mut state, count);
                    step_back(&backoff, count);
                } else if all_came(input) {
                    return end_whole(output);
                } else {
                    backoff.snooze();
                }
            }
        }
    }
    unreachable!()
}

// Ends the output after its whole plan.
fn end_whole<Q: Planned>(output: Writer<Q>) -> Closed<Q>
    requires published { output.part.written ≡ output.part.next }
    requires whole { output.part.written ≡ length output.ring.samples }
    requires looks { output.part.read_looks ≤ output.part.freed + output.part.stop_looks }
    requires no_stop { output.part.saw_stop ≡ false }
    ensures of { (result.table ≡ output.table) × (result.ring ≡ output.ring) }
    ensures end { result.end.kind ≡ Done }
    ensures truly { EndsTruly result }
    ensures heeds { HeedsStop result }
{
    output.end(EndKind::Done)
}

// Lets the munger get ahead after a block that wasn't full.
fn step_back(backoff: &Backoff, count: u32) {
    if count < BLOCK {
        backoff.snooze();
    }
}

// Maps a block of samples, and reports how many are mapped of it.
fn map_block<P: Planned>(input: &mut Reader<P>) -> u32
    ensures block { result ≡ min 64 input.new.mapped }
    ensures looked { input.new.part.munged_looks ≡ input.old.part.munged_looks + 1 }
    ensures kept { IsSameInput input.old input.new }
    ensures places { IsReading input.new }
{
    input.map(BLOCK);
    input.mapped().min(BLOCK)
}

// Filters mapped samples until an output finds no room, which is given. It releases the samples that
// were taken, and publishes the outputs that were put.
fn move_block<P: Planned, Q: Planned>(
    input: &mut Reader<P>,
    output: &mut Writer<Q>,
    rule: &LoopRule,
    state: &mut LoopState,
    count: u32,
) -> Option<u32>
    requires mapped { count ≤ input.old.mapped }
    requires within { AreWithin rule.now (munged_plan input.old.ring) }
    requires plan { output.old.ring.samples ≡ all_filtered rule.now (munged_plan input.old.ring) }
    requires filtered { HasFiltered rule.now (munged_plan input.old.ring) input.old.part.released output.old.part.next state.old None }
    ensures filtered { HasFiltered rule.now (munged_plan input.old.ring) input.new.part.released output.new.part.next state.new result }
    ensures input { IsSameStream input.old input.new }
    ensures output { IsSameOutput output.old output.new }
    ensures looked { HasLooked output.old output.new result }
    ensures published { output.new.part.written ≡ output.new.part.next }
{
    let (taken, waiting) = filter_block(input, output, rule, state, count);
    input.release(taken);
    output.publish();
    waiting
}

// Filters mapped samples until an output finds no room, which is given. It gives how many it took.
#[tactic(auto, using(crate::proofs::Works::looked_on))]
fn filter_block<P: Planned, Q: Planned>(
    input: &mut Reader<P>,
    output: &mut Writer<Q>,
    rule: &LoopRule,
    state: &mut LoopState,
    count: u32,
) -> (u32, Option<u32>)
    requires mapped { count ≤ input.old.mapped }
    requires within { AreWithin rule.now (munged_plan input.old.ring) }
    requires plan { output.old.ring.samples ≡ all_filtered rule.now (munged_plan input.old.ring) }
    requires filtered { HasFiltered rule.now (munged_plan input.old.ring) input.old.part.released output.old.part.next state.old None }
    ensures taken { result.0 ≤ count }
    ensures filtered { HasFiltered rule.now (munged_plan input.old.ring) (input.old.part.released + result.0) output.new.part.next state.new result.1 }
    ensures same { input.new ≡ input.old }
    ensures output { IsSameOutput output.old output.new }
    ensures looked { HasLooked output.old output.new result.1 }
{
    for i in 0..count {
        let waiting = filter_word(input, output, rule, state, i);
        if waiting.is_some() {
            return (i + 1, waiting);
        }
    }
    (count, None)
}

// Filters a mapped sample, and gives its output where that finds no room.
#[inline(always)]
fn filter_word<P: Planned, Q: Planned>(
    input: &mut Reader<P>,
    output: &mut Writer<Q>,
    rule: &LoopRule,
    state: &mut LoopState,
    i: u32,
) -> Option<u32>
    requires mapped { i < input.old.mapped }
    requires within { AreWithin rule.now (munged_plan input.old.ring) }
    requires plan { output.old.ring.samples ≡ all_filtered rule.now (munged_plan input.old.ring) }
    requires filtered { HasFiltered rule.now (munged_plan input.old.ring) (input.old.part.released + i) output.old.part.next state.old None }
    ensures filtered { HasFiltered rule.now (munged_plan input.old.ring) (input.old.part.released + i + 1) output.new.part.next state.new result }
    ensures same { input.new ≡ input.old }
    ensures output { IsSameOutput output.old output.new }
    ensures looked { HasLooked output.old output.new result }
{
    let answer = next_answer(input, rule, state, i);
    match output.put(answer) {
        Ok(()) => None,
        Err(_) => Some(answer),
    }
}

// Gives a mapped sample to the filter.
#[tactic(auto, using(crate::proofs::Works::fits_item, crate::proofs::Works::output_is, crate::proofs::Works::stands_after))]
#[inline(always)]
fn next_answer<P: Planned>(
    input: &mut Reader<P>,
    rule: &LoopRule,
    state: &mut LoopState,
    i: u32,
) -> u32
    requires mapped { i < input.old.mapped }
    requires within { AreWithin rule.now (munged_plan input.old.ring) }
    requires rule { state.old.rule ≡ rule.now }
    requires stands { StandsFor state.old (take (input.old.part.released + i) (munged_plan input.old.ring)) }
    ensures answer { result ≡ filtered rule.now (munged_plan input.old.ring) (input.old.part.released + i) }
    ensures rule { state.new.rule ≡ rule.now }
    ensures stands { StandsFor state.new (take (input.old.part.released + i + 1) (munged_plan input.old.ring)) }
    ensures within { input.old.part.released + i < length (munged_plan input.old.ring) }
    ensures same { input.new ≡ input.old }
{
    let word = mapped_word(input, i);
    state.next(rule, word)
}

// A mapped sample.
#[tactic(auto, using(cm_ring::proofs::Pieces::length_munged, cm_ring::proofs::Pieces::munged_there))]
#[inline(always)]
fn mapped_word<P: Planned>(input: &mut Reader<P>, i: u32) -> u32
    requires { i < input.old.mapped }
    ensures word { result ≡ slice_index (munged_plan input.old.ring) (input.old.part.released + i) }
    ensures within { input.old.part.released + i < length (munged_plan input.old.ring) }
    ensures few { length (munged_plan input.old.ring) ≤ 2 ^ 40 }
    ensures same { input.new ≡ input.old }
{
    // This call shows where the places are.
    shows(&input.mapped());
    input.word(i)
}

// Whether an end of the input was found, and all samples up to it are released.
fn all_came<P: Planned>(input: &mut Reader<P>) -> bool
    requires { (input.old.ring.paced ≡ true) × (input.old.part.asked ≡ false) }
    ensures kept { IsSameInput input.old input.new }
    ensures looked { input.new.part.end_looks ≡ input.old.part.end_looks + 1 }
    ensures all { IsTrue result → input.new.part.released ≡ length input.old.ring.samples }
    ensures found { IfSome input.new.part.found (λ e. e.count ≡ input.new.part.released → IsTrue result) }
{
    match input.ended() {
        None => false,
        Some(end) => end.count == input.released(),
    }
}
