// The one client of all watched lines.
ghost use Rattle.std.specs.Prelude.{◌≡◌, ◌<◌, ◌≤◌, false, length, map, true, IfErr, IfOk};
ghost use Rattle.cm_stream.specs.Merging.{fixed, released_of};
ghost use Rattle.cm_watch.specs.Watched.{AreRead, AreSame, AreStopped, CanPut, HasPut, HasWatched, HasWatchedAll, HaveAsked};

use crate::events::WatchEvents;
use crate::watcher::Watcher;
use cm_base::gate::Gate;
use cm_base::transfer::NoMemory;
use cm_sample::planned::Planned;
use cm_stream::merge::{Merge, MergeStep};
use cm_text::sample_text::SampleText;
use std::alloc::Global;
use std::sync::Wait;

/// What a client has read of its streams: the lines of the samples of each, and the streams.
#[derive(Drop)]
pub struct Watched<'a, P: Planned> {
    pub texts: Vec<SampleText<'a>>,
    pub merge: Merge<P>,
}

/// A client that gave up, for want of memory or of a thread: each of its streams has asked for the stop, so that
/// a writer that waits for room ends.
#[derive(Drop)]
pub(crate) struct GaveUp<'a, P: Planned> {
    pub client: Watched<'a, P>,
    ghost asked: { AreStopped client.merge.streams },
}

// Appends the lines of a source's next samples.
fn put_lines(texts: &mut [SampleText<'_>], source: u32, words: &[u32]) -> Result<(), NoMemory>
    requires { CanPut source words.now texts.old }
    ensures { IfOk result (λ _. HasPut source words.now texts.old texts.new) }
{
    texts[source as usize].put(words)
}

// How many samples of further scans are taken at once.
const PIECE: u32 = 256;

// Appends the lines of a source's further whole scans that have come, a piece at most, by way of `room`.
fn put_more<P: Planned, G: Gate>(
    merge: &mut Merge<P>,
    texts: &mut [SampleText<'_>],
    room: &mut Vec<u32>,
    watcher: &mut Watcher<'_>,
    source: u32,
    gate: &G,
) -> Result<(), NoMemory>
    requires source { source < length merge.old.streams }
    requires told { watcher.old.told ≡ map released_of merge.old.streams }
    requires read { AreRead merge.old.streams texts.old }
    ensures told { IfOk result (λ _. watcher.new.told ≡ map released_of merge.new.streams) }
    ensures read { IfOk result (λ _. AreRead merge.new.streams texts.new) }
    ensures same { IfOk result (λ _. AreSame merge.old.streams merge.new.streams texts.old texts.new) }
    ensures kept { map fixed merge.new.streams ≡ map fixed merge.old.streams }
    ensures idle { watcher.new.idle ≡ watcher.old.idle }
{
    room.clear();
    let scans = merge.append_scans(source, room, PIECE)?;
    watcher.release(source, merge.released(source));
    put_lines(texts, source, room)?;
    pass_each(gate, source, scans);
    Ok(())
}

// Passes the gate's point once for each of so many scans.
fn pass_each<G: Gate>(gate: &G, source: u32, scans: u32) {
    for _ in 0..scans {
        gate.pass(source, 4);
    }
}

// Reads every stream to its end. The watcher makes each step, and knows everything that is released.
fn read_all<R: Wait + Sync, P: Planned, G: Gate>(
    rt: &R,
    alloc: Global,
    merge: &mut Merge<P>,
    texts: &mut [SampleText<'_>],
    watcher: &mut Watcher<'_>,
    gate: &G,
) -> Result<(), NoMemory>
    requires told { watcher.old.told ≡ map released_of merge.old.streams }
    requires waited { watcher.old.idle ≡ false }
    requires read { AreRead merge.old.streams texts.old }
    ensures watched { IfOk result (λ _. HasWatched merge.old.streams merge.new.streams texts.old texts.new) }
    ensures told { IfOk result (λ _. watcher.new.told ≡ map released_of merge.new.streams) }
    ensures over { IfOk result (λ _. watcher.new.over ≡ true) }
    ensures kept { map fixed merge.new.streams ≡ map fixed merge.old.streams }
{
    let mut room = Vec::new(alloc);
    for _ in rt.forever() {
        match watcher.step(merge) {
            MergeStep::Given(source, scan) => {
                watcher.release(source, merge.released(source));
                put_lines(texts, source, &scan.words)?;
                gate.pass(source, 4);
                put_more(merge, texts, &mut room, watcher, source, gate)?;
            }
            MergeStep::Ended => return Ok(()),
            MergeStep::Waiting => watcher.wait(rt, merge),
            MergeStep::NoMemory(_) => return Err(NoMemory),
        }
    }
    unreachable!()
}

// Reads all streams to their ends with a watcher that was told of all that they have released.
fn read_watched<R: Wait + Sync, P: Planned, G: Gate>(
    rt: &R,
    alloc: Global,
    merge: &mut Merge<P>,
    texts: &mut [SampleText<'_>],
    events: &WatchEvents,
    gate: &G,
) -> Result<(), NoMemory>
    requires events { length merge.old.streams ≤ length events.now.lines.items }
    requires read { AreRead merge.old.streams texts.old }
    ensures watched { IfOk result (λ _. HasWatched merge.old.streams merge.new.streams texts.old texts.new) }
    ensures kept { map fixed merge.new.streams ≡ map fixed merge.old.streams }
{
    let mut watcher = Watcher::new(alloc, events, merge.all_released(alloc)?)?;
    read_all(rt, alloc, merge, texts, &mut watcher, gate)
}

/// Reads all streams to their ends, in turn: a scan of one, and those that stand after it. The lines of
/// the samples are made as they come. Where memory runs out, it gives up.
pub(crate) fn read_scans<'a, R: Wait + Sync, P: Planned, G: Gate>(
    rt: &R,
    alloc: Global,
    client: Watched<'a, P>,
    events: &WatchEvents,
    gate: &G,
) -> Result<Watched<'a, P>, GaveUp<'a, P>>
    requires events { length client.merge.streams ≤ length events.now.lines.items }
    requires read { AreRead client.merge.streams client.texts.items }
    ensures watched { IfOk result (HasWatchedAll client.entry) }
    ensures gave_up { IfErr result (λ g. HaveAsked client.entry.merge.streams g.client.merge.streams) }
{
    let Watched {
        mut texts,
        mut merge,
    } = client;
    match read_watched(rt, alloc, &mut merge, &mut texts, events, gate) {
        Ok(()) => Ok(Watched { texts, merge }),
        Err(NoMemory) => Err(give_up(Watched { texts, merge }, events)),
    }
}

/// Asks every ring for the stop, and gives up.
pub(crate) fn give_up<'a, P: Planned>(
    mut client: Watched<'a, P>,
    events: &WatchEvents,
) -> GaveUp<'a, P>
    ensures { HaveAsked client.entry.merge.streams result.client.merge.streams }
{
    client.merge.stop_all();
    events.wake_boards(&client.merge);
    GaveUp { client }
}
