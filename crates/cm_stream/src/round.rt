// Rounds over the streams of a merge.
ghost use Rattle.std.specs.Prelude.{◌≡◌, ◌<◌, length, map, IfOk, OnErr};
ghost use Rattle.cm_stream.specs.Appended.{HasAppendedOf, HasReleasedNothing};
ghost use Rattle.cm_stream.specs.Stream.{asked_stream};
ghost use Rattle.cm_stream.specs.Merging.{released_of, source_after, HasTurned, HasGoneRound};

use crate::merge::MergeStep;
use crate::step::StreamStep;
use crate::stream::ScanStream;
use cm_base::transfer::NoMemory;
use cm_sample::planned::Planned;
use std::alloc::{AllocError, Global};

// The turn of one source: none where it is over.
fn turn<P: Planned>(streams: &mut [ScanStream<P>], source: usize) -> Option<StreamStep>
    requires { source < length streams.old }
    ensures { HasTurned result source streams.old streams.new }
{
    let stream = &mut streams[source];
    if stream.is_over() {
        return None;
    }
    Some(stream.step())
}

// The source that is so many turns after the first.
fn source_at(first: u32, turns: u32, count: u32) -> u32
    requires { (first < count) × (turns < count) }
    ensures source { result ≡ source_after first count turns }
    ensures within { result < count }
{
    let after = u64::from(first) + u64::from(turns);
    let count = u64::from(count);
    (if after < count { after } else { after - count }) as u32
}

// Steps each source once at most, from the first on, until a stream gives a scan or lacks memory.
pub(crate) fn round<P: Planned>(streams: &mut [ScanStream<P>], first: u32, count: u32) -> MergeStep
    requires { (first < count) × (count ≡ length streams.old) }
    ensures { HasGoneRound result first streams.old streams.new }
{
    let mut waits = false;
    for k in 0..count {
        let source = source_at(first, k, count);
        match turn(streams, source as usize) {
            None => {}
            Some(StreamStep::Ended) => {}
            Some(StreamStep::Waiting) => waits = true,
            Some(StreamStep::Given(scan)) => return MergeStep::Given(source, scan),
            Some(StreamStep::NoMemory) => return MergeStep::NoMemory(source),
        }
    }
    if waits {
        MergeStep::Waiting
    } else {
        MergeStep::Ended
    }
}

// Appends the words of the next whole scans of one source.
pub(crate) fn append_of<P: Planned>(
    streams: &mut [ScanStream<P>],
    source: usize,
    words: &mut Vec<u32>,
    most: u32,
) -> Result<u32, NoMemory>
    requires { source < length streams.old }
    ensures appended { IfOk result (λ scans. HasAppendedOf source scans most words.old.items words.new.items streams.old streams.new) }
    ensures lack { OnErr result (HasReleasedNothing streams.old streams.new) }
    ensures count { length streams.new ≡ length streams.old }
{
    let stream = &mut streams[source];
    stream.append_scans(words, most)
}

// How many samples each stream has released.
pub(crate) fn released_of_each<P: Planned>(
    alloc: Global,
    streams: &[ScanStream<P>],
) -> Result<Vec<u64>, AllocError>
    ensures { IfOk result (λ counts. counts.items ≡ map released_of streams.now) }
{
    let mut counts = Vec::new(alloc);
    for i in 0..streams.len() {
        let stream = &streams[i];
        counts.push(stream.released())?;
    }
    Ok(counts)
}

// Asks each ring for the stop.
pub(crate) fn ask_all<P: Planned>(streams: &mut [ScanStream<P>])
    ensures { streams.new ≡ map asked_stream streams.old }
{
    for i in 0..streams.len() {
        let stream = &mut streams[i];
        stream.ask_stop();
    }
}
