// The client's worker, and the munger's beside it.
ghost use Rattle.std.specs.Prelude.{◌≡◌, ℕ, [], IfErr, IfOk, IsErr, OnErr, true};
ghost use Rattle.cm_client.specs.Progress.{Accepts, IsSameRing};
ghost use Rattle.cm_client.specs.Served.{HasServed};
ghost use Rattle.cm_client.specs.Streamed.{HasAsked, IsFresh, StreamsTo};

use crate::munging::{OwnMunger, munge_work};
use crate::reading::consume_to_end;
use crate::waiting::Waiting;
use crate::workers::{AllMunged, Worker, with_worker};
use cm_base::gate::Gate;
use cm_base::transfer::NoMemory;
use cm_ring::munger::Munger;
use cm_ring::reader::Reader;
use cm_ring_core::view::End;
use cm_sample::consuming::Consumer;
use cm_sample::planned::Planned;
use crossbeam_utils::Backoff;
use std::sync::Wait;
use std::thread::Threads;

// How many samples a client reads at once.
const CHUNK: u32 = 64;

/// What became of the samples that a client has read, the end that it found, and its reader.
#[derive(Drop)]
pub struct Streamed<P: Planned, C: Consumer> {
    pub samples: C,
    pub end: End,
    pub reader: Reader<P>,
}

/// A client that gave up, for want of memory or of a thread: its reader, which has asked for the stop, so that
/// a writer that waits for room ends.
#[derive(Drop)]
pub struct GaveUp<P: Planned> {
    pub reader: Reader<P>,
    ghost asked: { reader.part.asked ≡ true },
}

impl<P: Planned> From<GaveUp<P>> for NoMemory {
    fn from(_: GaveUp<P>) -> Self {
        NoMemory
    }
}

/// Asks for the stop, and gives up.
pub fn give_up<P: Planned>(mut reader: Reader<P>) -> GaveUp<P>
    ensures { HasAsked reader result.reader }
{
    reader.ask_stop();
    GaveUp { reader }
}

/// How a client reads: in place or by copying, and how many samples it takes, or all.
#[derive(Clone, Copy)]
pub struct Reads {
    pub by_map: bool,
    pub take: Option<u64>,
}

/// Reads to the end in pieces of 64, or up to as many samples as it takes, and hands them to a consumer.
/// It waits for the munger in the way that the caller chooses, hands on all that it has released by that, and gives it
/// back.
pub fn client_work<R: Wait + Sync, P: Planned, C: Consumer, W: Waiting, G: Gate>(
    rt: &R,
    reader: &mut Reader<P>,
    consumer: &mut C,
    waiting: W,
    reads: Reads,
    gate: &G,
    who: u32,
) -> (Result<End, NoMemory>, W)
    requires fresh { IsFresh reader.old }
    requires new { (C.count consumer.old ≡ 0) × (C.made consumer.old ≡ C.makes consumer.old []) }
    requires accepts { Accepts (C.accepts consumer.old) reader.old.ring }
    ensures streamed { IfOk result.0 (λ e. StreamsTo (C.made consumer.new) (C.makes consumer.old) reader.old.ring reads.take e reader.new) }
    ensures of { IsSameRing reader.old reader.new }
    ensures no_memory { OnErr result.0 (reader.new.part.asked ≡ true) }
    ensures served { IfOk result.0 (λ _. HasServed W.has_handed_on W.has_waited W.has_ended 0 reader.new.part.released waiting result.1) }
    ensures ended { OnErr result.0 ((to : ℕ) × HasServed W.has_handed_on W.has_waited W.has_ended 0 to waiting result.1) }
{
    let Reads { by_map, take } = reads;
    consume_to_end(
        rt, reader, consumer, waiting, CHUNK, by_map, take, gate, who,
    )
}

/// The two ends of a ring that a client's side has.
#[derive(Drop)]
pub struct ClientSide<P: Planned> {
    pub munger: Munger<P>,
    pub reader: Reader<P>,
}

// The client's thread, which owns its reader. It reads if the thread that it reads from has started, and gives back how
// it waited.
fn read_line<R: Wait + Sync, P: Planned, C: Consumer, W: Waiting, G: Gate>(
    rt: &R,
    mut reader: Reader<P>,
    mut consumer: C,
    waiting: W,
    other: Worker,
    reads: Reads,
    gate: &G,
    who: u32,
) -> (Result<Streamed<P, C>, GaveUp<P>>, W)
    requires fresh { IsFresh reader }
    requires new { (C.count consumer ≡ 0) × (C.made consumer ≡ C.makes consumer []) }
    requires accepts { Accepts (C.accepts consumer) reader.ring }
    ensures streamed { IfOk result.0 (λ s. StreamsTo (C.made s.samples) (C.makes consumer) reader.ring reads.take s.end s.reader) }
    ensures gave_up { IfErr result.0 (λ g. HasAsked reader g.reader) }
    ensures started { IfOk result.0 (λ _. other ≡ Worker.Started) }
    ensures served { IfOk result.0 (λ s. HasServed W.has_handed_on W.has_waited W.has_ended 0 s.reader.part.released waiting result.1) }
{
    if other == Worker::Refused {
        return (Err(give_up(reader)), waiting);
    }
    let (ended, way) = client_work(rt, &mut reader, &mut consumer, waiting, reads, gate, who);
    match ended {
        Ok(end) => {
            let streamed = Streamed {
                samples: consumer,
                end,
                reader,
            };
            (Ok(streamed), way)
        }
        Err(NoMemory) => (Err(GaveUp { reader }), way),
    }
}

/// Munges and reads to the end, each in a thread of its own, where the writer's thread has started.
/// It gives up where that one, or the munger's, couldn't be made, and where memory runs out.
pub fn run_client<
    R: Threads + Wait + Sync,
    P: Planned + Send + Sync,
    C: Consumer + Send,
    G: Gate + Sync,
>(
    rt: &R,
    side: ClientSide<P>,
    consumer: C,
    other: Worker,
    reads: Reads,
    gate: &G,
    who: u32,
) -> Result<Streamed<P, C>, GaveUp<P>>
    requires fresh { IsFresh side.reader }
    requires new { (C.count consumer ≡ 0) × (C.made consumer ≡ C.makes consumer []) }
    requires accepts { Accepts (C.accepts consumer) side.reader.ring }
    ensures streamed { IfOk result (λ s. StreamsTo (C.made s.samples) (C.makes consumer) side.reader.ring reads.take s.end s.reader) }
    ensures gave_up { IfErr result (λ g. HasAsked side.reader g.reader) }
    ensures started { IfOk result (λ _. other ≡ Worker.Started) }
{
    let ClientSide { munger, reader } = side;
    if other == Worker::Refused {
        return Err(give_up(reader));
    }
    munge_and_read(rt, munger, reader, consumer, reads, gate, who)
}

// Munges and reads to the end, each in a thread of its own.
fn munge_and_read<
    R: Threads + Wait + Sync,
    P: Planned + Send + Sync,
    C: Consumer + Send,
    G: Gate + Sync,
>(
    rt: &R,
    munger: Munger<P>,
    reader: Reader<P>,
    consumer: C,
    reads: Reads,
    gate: &G,
    who: u32,
) -> Result<Streamed<P, C>, GaveUp<P>>
    requires fresh { IsFresh reader }
    requires new { (C.count consumer ≡ 0) × (C.made consumer ≡ C.makes consumer []) }
    requires accepts { Accepts (C.accepts consumer) reader.ring }
    ensures streamed { IfOk result (λ s. StreamsTo (C.made s.samples) (C.makes consumer) reader.ring reads.take s.end s.reader) }
    ensures gave_up { IfErr result (λ g. HasAsked reader g.reader) }
{
    let (_, streamed) = with_worker(
        rt,
        AllMunged,
        move || munge_work(rt, munger),
        move |munging| -> Result<Streamed<P, C>, GaveUp<P>>
            requires { IsFresh reader × (C.count consumer ≡ 0) × (C.made consumer ≡ C.makes consumer []) × Accepts (C.accepts consumer) reader.ring }
            ensures { IfOk result (λ s. StreamsTo (C.made s.samples) (C.makes consumer) reader.ring reads.take s.end s.reader) × IfErr result (λ g. HasAsked reader g.reader) × IfOk result (λ _. munging ≡ Worker.Started) }
        {
            let waiting = Backoff::new();
            let (streamed, _) = read_line(rt, reader, consumer, waiting, munging, reads, gate, who);
            streamed
        },
    );
    streamed
}

/// Munges and reads to the end, both in the thread that calls it, where the writer's thread has started.
/// It gives up where that one couldn't be made, and where memory runs out.
pub fn run_munging_client<R: Wait + Sync, P: Planned, C: Consumer, G: Gate>(
    rt: &R,
    side: ClientSide<P>,
    consumer: C,
    other: Worker,
    reads: Reads,
    gate: &G,
    who: u32,
) -> Result<Streamed<P, C>, GaveUp<P>>
    requires fresh { IsFresh side.reader }
    requires new { (C.count consumer ≡ 0) × (C.made consumer ≡ C.makes consumer []) }
    requires accepts { Accepts (C.accepts consumer) side.reader.ring }
    ensures streamed { IfOk result (λ s. StreamsTo (C.made s.samples) (C.makes consumer) side.reader.ring reads.take s.end s.reader) }
    ensures gave_up { IfErr result (λ g. HasAsked side.reader g.reader) }
    ensures started { IfOk result (λ _. other ≡ Worker.Started) }
{
    let ClientSide { munger, reader } = side;
    let waiting = OwnMunger::new(munger);
    let (streamed, _) = read_line(rt, reader, consumer, waiting, other, reads, gate, who);
    streamed
}
