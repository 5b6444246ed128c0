// The threads of a loop.
ghost use Rattle.std.specs.Prelude.{◌≡◌, [], IfOk, IfErr};
ghost use Rattle.cm_client.specs.Streamed.{HasAsked, IsFresh, StreamsTo};

use crate::side::FilterSide;
use cm_base::gate::Gate;
use cm_client::client::{ClientSide, GaveUp, Reads, Streamed, run_munging_client};
use cm_client::munging::munge_work;
use cm_client::paced::PacedBoard;
use cm_client::words::Words;
use cm_client::workers::{AllMunged, TrueEnd, Worker, with_worker};
use cm_ring::munger::Munger;
use cm_sample::planned::Planned;
use crossbeam_utils::Backoff;
use std::sync::Wait;
use std::thread::Threads;

/// The number of the input's board in the gate's points, and that of the output's client.
const BOARD: u32 = 0;

const CLIENT: u32 = 1;

/// What the threads of a loop own, but for the input's board: its munger, the filter, and the two ends
/// of the output's ring that the client's side has.
#[derive(Drop)]
pub(crate) struct LoopSide<'a, P: Planned, Q: Planned> {
    pub munger: Munger<P>,
    pub filter: FilterSide<'a, P, Q>,
    pub client: ClientSide<Q>,
}

/// Streams an input through a filter into an output, and gives what comes out of its ring, up to as
/// many words as the client takes: the input's board and munger and the filter have threads of their own,
/// the client munges the output's ring itself, and all threads have ended when it returns. Where a thread of
/// the input's ring or the filter's can't be made, the input gives up. Else the output's client may, and the
/// filter, which sees that stop, hands it on.
pub(crate) fn stream_loop<
    R: Threads + Wait + Sync,
    P: Planned + Send + Sync,
    Q: Planned + Send + Sync,
    W: Words + Send,
    G: Gate + Sync,
>(
    rt: &R,
    board: PacedBoard<P, W>,
    side: LoopSide<'_, P, Q>,
    words: Vec<u32>,
    reads: Reads,
    gate: &G,
) -> Result<Result<Streamed<Q, Vec<u32>>, GaveUp<Q>>, GaveUp<P>>
    requires fresh { IsFresh side.client.reader }
    requires words { words.items ≡ [] }
    ensures streamed { IfOk result (λ r. IfOk r (λ s. StreamsTo s.samples.items (λ words. words) side.entry.client.reader.ring reads.take s.end s.reader)) }
    ensures output { IfOk result (λ r. IfErr r (λ g. HasAsked side.entry.client.reader g.reader)) }
{
    let (_, streamed) = with_worker(
        rt,
        TrueEnd,
        move || board.put_all(rt, Backoff::new(), gate, BOARD),
        move |board| -> Result<Result<Streamed<Q, Vec<u32>>, GaveUp<Q>>, GaveUp<P>>
            requires { IsFresh side.client.reader × (words.items ≡ []) }
            ensures { IfOk result (λ r. IfOk r (λ s. StreamsTo s.samples.items (λ words. words) side.entry.client.reader.ring reads.take s.end s.reader) × IfErr r (λ g. HasAsked side.entry.client.reader g.reader)) × IfOk result (λ _. board ≡ Worker.Started) }
        { munge_beside(rt, side, words, board, reads, gate) },
    );
    streamed
}

// Starts the input's munger where the board's thread has started, and goes on to the filter.
fn munge_beside<
    R: Threads + Wait + Sync,
    P: Planned + Send + Sync,
    Q: Planned + Send + Sync,
    G: Gate + Sync,
>(
    rt: &R,
    side: LoopSide<'_, P, Q>,
    words: Vec<u32>,
    other: Worker,
    reads: Reads,
    gate: &G,
) -> Result<Result<Streamed<Q, Vec<u32>>, GaveUp<Q>>, GaveUp<P>>
    requires fresh { IsFresh side.client.reader }
    requires words { words.items ≡ [] }
    ensures streamed { IfOk result (λ r. IfOk r (λ s. StreamsTo s.samples.items (λ words. words) side.entry.client.reader.ring reads.take s.end s.reader)) }
    ensures output { IfOk result (λ r. IfErr r (λ g. HasAsked side.entry.client.reader g.reader)) }
    ensures started { IfOk result (λ _. other ≡ Worker.Started) }
{
    let LoopSide {
        munger,
        filter,
        client,
    } = side;
    if other == Worker::Refused {
        return Err(filter.give_up());
    }
    let (_, streamed) = with_worker(
        rt,
        AllMunged,
        move || munge_work(rt, munger),
        move |munging| -> Result<Result<Streamed<Q, Vec<u32>>, GaveUp<Q>>, GaveUp<P>>
            requires { IsFresh client.reader × (words.items ≡ []) }
            ensures { IfOk result (λ r. IfOk r (λ s. StreamsTo s.samples.items (λ words. words) client.reader.ring reads.take s.end s.reader) × IfErr r (λ g. HasAsked client.reader g.reader)) × IfOk result (λ _. munging ≡ Worker.Started) }
        { filter_beside(rt, filter, client, words, munging, reads, gate) },
    );
    streamed
}

// Starts the filter where the input's munger has started, and goes on to the output's client.
fn filter_beside<
    R: Threads + Wait + Sync,
    P: Planned + Send + Sync,
    Q: Planned + Send + Sync,
    G: Gate + Sync,
>(
    rt: &R,
    filter: FilterSide<'_, P, Q>,
    client: ClientSide<Q>,
    words: Vec<u32>,
    other: Worker,
    reads: Reads,
    gate: &G,
) -> Result<Result<Streamed<Q, Vec<u32>>, GaveUp<Q>>, GaveUp<P>>
    requires fresh { IsFresh client.reader }
    requires words { words.items ≡ [] }
    ensures streamed { IfOk result (λ r. IfOk r (λ s. StreamsTo s.samples.items (λ words. words) client.reader.ring reads.take s.end s.reader)) }
    ensures output { IfOk result (λ r. IfErr r (λ g. HasAsked client.reader g.reader)) }
    ensures started { IfOk result (λ _. other ≡ Worker.Started) }
{
    if other == Worker::Refused {
        return Err(filter.give_up());
    }
    let (_, streamed) = with_worker(
        rt,
        TrueEnd,
        move || filter.filter_all(rt),
        move |filtering| -> Result<Result<Streamed<Q, Vec<u32>>, GaveUp<Q>>, GaveUp<P>>
            requires { IsFresh client.reader × (words.items ≡ []) }
            ensures { IfOk result (λ r. IfOk r (λ s. StreamsTo s.samples.items (λ words. words) client.reader.ring reads.take s.end s.reader) × IfErr r (λ g. HasAsked client.reader g.reader)) × IfOk result (λ r. IfOk r (λ _. filtering ≡ Worker.Started)) }
        { Ok(run_munging_client(rt, client, words, filtering, reads, gate, CLIENT)) },
    );
    streamed
}
