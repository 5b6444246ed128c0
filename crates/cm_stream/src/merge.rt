// Several streams, served by one client.
ghost use Rattle.std.specs.Prelude.{◌≡◌, ◌<◌, ◌^◌, length, map, IfOk, IfSome, OnErr, None};
ghost use Rattle.std.specs.List.{All};
ghost use Rattle.cm_stream.specs.Appended.{HasAppendedOf, HasReleasedNothing};
ghost use Rattle.cm_stream.specs.Stream.{asked_stream};
ghost use Rattle.cm_stream.specs.Merging.{merging, first_after, last_after, released_of, HasGoneRound, HasMerged, IsEndOf, IsFresh, IsReleasedOf};

use crate::round::{append_of, ask_all, released_of_each, round};
use crate::scan::Scan;
use crate::stream::ScanStream;
use cm_base::transfer::NoMemory;
use cm_ring_core::view::End;
use cm_sample::planned::Planned;
use std::alloc::Global;
use std::marker::Model;

/// The answer of a merge's step. Sources are numbered from 0.
#[derive(Drop)]
pub enum MergeStep {
    /// The next scan of a source, which is released.
    Given(u32, Scan),
    /// All sources have ended, and all their samples are released.
    Ended,
    /// Some sources haven't ended, and each of them was stepped in this call and waits.
    Waiting,
    /// Memory ran out at the step of a source, which tries the same scan again at its next one.
    NoMemory(u32),
}

/// Streams that are stepped in turn, so that a source that has much doesn't keep the others waiting.
/// Contracts see of it its streams and the source that was given last.
#[derive(Drop)]
pub struct Merge<P: Planned> {
    streams: Vec<ScanStream<P>>,
    last: Option<u32>,
}

impl<P: Planned> Model for Merge<P> {
    ghost use Rattle.cm_stream.specs.Merging.{MergeText, merging, IsMerge};

    ghost Value = { MergeText };

    ghost view = { λ m. merging m.streams.items m.last };

    ghost invariant = { λ m. IsMerge m.streams.items m.last };
}

// A round, and what it means for what each source has given.
fn go_round<P: Planned>(streams: &mut [ScanStream<P>], first: u32, count: u32) -> MergeStep
    requires { (first < count) × (count ≡ length streams.old) }
    ensures { HasMerged result first streams.old streams.new }
{
    round(streams, first, count)
}

impl<P: Planned> Merge<P> {
    /// A merge of fresh streams, fewer than 2^32. It takes no memory.
    pub fn new(_alloc: Global, streams: Vec<ScanStream<P>>) -> Result<Merge<P>, NoMemory>
        requires fresh { All IsFresh streams.items }
        requires few { length streams.items < 2 ^ 32 }
        ensures { IfOk result (λ m. m ≡ merging streams.items None) }
    {
        Ok(Merge {
            streams,
            last: None,
        })
    }

    // The source that the next round starts with.
    fn first(&self) -> u32
        ensures first { result ≡ first_after (length self.now.streams) self.now.last }
        ensures within { 0 < length self.now.streams → result < length self.now.streams }
    {
        let count = self.streams.len() as u32;
        match self.last {
            None => 0,
            Some(last) => if last + 1 < count { last + 1 } else { 0 },
        }
    }

    /// One round of steps: in rising order from the source after the one that was given last, or from
    /// source 0, each source that hasn't ended is stepped once, until one gives a scan or lacks
    /// memory. Only the scan's samples are released.
    pub fn step(&mut self) -> MergeStep
        ensures merged { HasMerged result (first_after (length self.old.streams) self.old.last) self.old.streams self.new.streams }
        ensures last { self.new.last ≡ last_after result self.old.last }
    {
        let count = self.streams.len() as u32;
        if count == 0 {
            return MergeStep::Ended;
        }
        let first = self.first();
        let answer = go_round(&mut self.streams, first, count);
        if let MergeStep::Given(source, _) = &answer {
            self.last = Some(*source);
        }
        answer
    }

    /// Appends the words of the next whole scans of a source, of at most `most` samples in all, as
    /// `ScanStream::append_scans` does, and reports how many scans they are. The other sources, and the
    /// one that was given last, stay as they are. Where memory runs out nothing is released.
    pub fn append_scans(&mut self, s: u32, words: &mut Vec<u32>, most: u32) -> Result<u32, NoMemory>
        requires { s < length self.old.streams }
        ensures appended { IfOk result (λ scans. HasAppendedOf s scans most words.old.items words.new.items self.old.streams self.new.streams) }
        ensures lack { OnErr result (HasReleasedNothing self.old.streams self.new.streams) }
        ensures last { self.new.last ≡ self.old.last }
    {
        append_of(&mut self.streams, s as usize, words, most)
    }

    /// How many samples a source has released.
    pub fn released(&self, s: u32) -> u64
        requires { s < length self.now.streams }
        ensures { IsReleasedOf self.now.streams s result }
    {
        let stream = &self.streams[s as usize];
        stream.released()
    }

    /// How many samples each source has released.
    pub fn all_released(&self, alloc: Global) -> Result<Vec<u64>, NoMemory>
        ensures { IfOk result (λ counts. counts.items ≡ map released_of self.now.streams) }
    {
        Ok(released_of_each(alloc, &self.streams)?)
    }

    /// Asks every ring for the stop. It takes no memory.
    pub fn stop_all(&mut self)
        ensures { self.new ≡ merging (map asked_stream self.old.streams) self.old.last }
    {
        ask_all(&mut self.streams);
    }

    /// The end that a source has found.
    pub fn end_of(&self, s: u32) -> Option<End>
        requires { s < length self.now.streams }
        ensures { IsEndOf self.now.streams s result }
    {
        let stream = &self.streams[s as usize];
        stream.end()
    }
}
