// The threads of the watched lines.
ghost use Rattle.std.specs.Prelude.{◌≡◌, ◌+◌, ◌<◌, ◌≤◌, ◌^◌, ◌++◌, [], ◌∷◌, length, IfErr, IfOk, MatchOption};
ghost use Rattle.std.specs.Thread.{IsSync};
ghost use Rattle.cm_client.specs.Idle.{IsIdle};
ghost use Rattle.cm_watch.specs.Places.{ArePlaced, IsPlace};
ghost use Rattle.cm_watch.specs.Watched.{AreRead, HasWatchedAll, HaveAsked};
ghost use Rattle.cm_client.specs.Streamed.{EndsTruly};

use crate::client::{GaveUp, Watched, give_up, read_scans};
use crate::events::WatchEvents;
use crate::side::{BoardSide, LineBoard};
use cm_base::gate::Gate;
use cm_base::prover::shows;
use cm_client::claiming::{another_seat, claim_waiting};
use cm_client::munging::munge_waiting;
use cm_client::waiting::Relay;
use cm_client::words::Words;
use cm_client::workers::{AllMunged, TrueEnd, Worker, with_worker};
use cm_ring::munger::Munger;
use cm_ring::writer::Closed;
use cm_sample::planned::Planned;
use cm_sub::owners::{OwnerSeat, Owners};
use std::alloc::Global;
use std::sync::Wait;
use std::thread::Threads;

// A board's thread: it has its subdevice while it puts its words, and gives back how it waited.
fn board_thread<'o, 'e, R: Wait + Sync, P: Planned, W: Words, G: Gate>(
    rt: &R,
    owners: &Owners,
    seat: &mut OwnerSeat,
    board: LineBoard<'o, P, W>,
    waiting: Relay<'e>,
    gate: &G,
    who: u32,
) -> (Closed<P>, Relay<'e>)
    requires idle { IsIdle owners.now seat.old }
    requires place { IsPlace owners.now board.owners.now board.sub }
    ensures of { result.0.ring ≡ board.entry.board }
    ensures end { EndsTruly result.0 }
    ensures idle { IsIdle owners.now seat.new }
{
    let sub = board.sub();
    let state = claim_waiting(rt, owners, seat, sub);
    let put = board.put_while(rt, seat, waiting, gate, who);
    owners.give_back(seat, sub, state);
    put
}

// Takes the last side.
fn last_side<'o, P: Planned, W: Words>(
    owners: &Owners,
    sides: &mut Vec<BoardSide<'o, P, W>>,
) -> Option<BoardSide<'o, P, W>>
    requires { ArePlaced owners.now sides.old.items }
    ensures { MatchOption result (sides.old.items ≡ []) (λ side.
        IsPlace owners.now side.board.owners.now side.board.sub
        × ArePlaced owners.now sides.new.items
        × (sides.old.items ≡ sides.new.items ++ side ∷ [])
        × (length sides.old.items ≡ length sides.new.items + 1)) }
{
    // They are here for the contract alone: they have each side's place.
    shows(owners);
    sides.pop()
}

/// Starts a board's thread and a munger's for each side, and reads all streams to their ends in this
/// one. All threads have ended when it returns. Where a thread can't be made, and where memory runs out, it
/// gives up.
#[cycle(sides)]
pub(crate) fn watch_sides<
    'a,
    'o,
    R: Threads + Wait + Sync,
    P: Planned + Send + Sync,
    W: Words + Send,
    G: Gate + Sync,
>(
    rt: &R,
    alloc: Global,
    owners: &Owners,
    mut seat: OwnerSeat,
    mut sides: Vec<BoardSide<'o, P, W>>,
    client: Watched<'a, P>,
    events: &WatchEvents,
    gate: &G,
) -> Result<Watched<'a, P>, GaveUp<'a, P>>
    requires idle { IsIdle owners.now seat }
    requires sides { ArePlaced owners.now sides.items }
    requires few { length sides.items < 2 ^ 32 }
    requires events { length sides.items ≤ length events.now.lines.items }
    requires streams { length client.merge.streams ≤ length events.now.lines.items }
    requires read { AreRead client.merge.streams client.texts.items }
    ensures watched { IfOk result (HasWatchedAll client.entry) }
    ensures gave_up { IfErr result (λ g. HaveAsked client.entry.merge.streams g.client.merge.streams) }
{
    let Some(side) = last_side(owners, &mut sides) else {
        return read_scans(rt, alloc, client, events, gate);
    };
    let theirs = another_seat(owners, &mut seat);
    let who = sides.len() as u32;
    let waiting = events.board(sides.len());
    let BoardSide { board, munger } = side;
    let (_, watched) = with_worker(
        rt,
        TrueEnd,
        move || -> (Closed<P>, Relay<'_>)
            requires { IsIdle owners.now theirs × IsPlace owners.now board.owners.now board.sub }
            ensures { EndsTruly result.0 }
        {
            let mut seat = theirs;
            board_thread(rt, owners, &mut seat, board, waiting, gate, who)
        },
        move |putting| -> Result<Watched<'_, P>, GaveUp<'_, P>>
            requires threads { IsSync R.row × IsSync G.row }
            requires idle { IsIdle owners.now seat }
            requires sides { ArePlaced owners.now sides.items }
            requires few { length sides.items < 2 ^ 32 }
            requires events { length sides.items < length events.now.lines.items }
            requires streams { length client.merge.streams ≤ length events.now.lines.items }
            requires read { AreRead client.merge.streams client.texts.items }
            ensures watched { IfOk result (HasWatchedAll client.entry) }
            ensures gave_up { IfErr result (λ g. HaveAsked client.entry.merge.streams g.client.merge.streams) }
            ensures started { IfOk result (λ _. putting ≡ Worker.Started) }
        {
            munge_beside(
                rt, alloc, owners, seat, sides, munger, putting, client, events, gate,
            )
        },
    );
    watched
}

// Starts the munger's thread of a line whose board's thread has started, and goes on to the others.
#[cycle(sides)]
fn munge_beside<
    'a,
    'o,
    R: Threads + Wait + Sync,
    P: Planned + Send + Sync,
    W: Words + Send,
    G: Gate + Sync,
>(
    rt: &R,
    alloc: Global,
    owners: &Owners,
    seat: OwnerSeat,
    sides: Vec<BoardSide<'o, P, W>>,
    munger: Munger<P>,
    other: Worker,
    client: Watched<'a, P>,
    events: &WatchEvents,
    gate: &G,
) -> Result<Watched<'a, P>, GaveUp<'a, P>>
    requires idle { IsIdle owners.now seat }
    requires sides { ArePlaced owners.now sides.items }
    requires few { length sides.items < 2 ^ 32 }
    requires events { length sides.items < length events.now.lines.items }
    requires streams { length client.merge.streams ≤ length events.now.lines.items }
    requires read { AreRead client.merge.streams client.texts.items }
    ensures watched { IfOk result (HasWatchedAll client.entry) }
    ensures gave_up { IfErr result (λ g. HaveAsked client.entry.merge.streams g.client.merge.streams) }
    ensures started { IfOk result (λ _. other ≡ Worker.Started) }
{
    if other == Worker::Refused {
        return Err(give_up(client, events));
    }
    let waiting = events.munger(sides.len());
    let (_, watched) = with_worker(
        rt,
        AllMunged,
        move || munge_waiting(rt, munger, waiting),
        move |munging| -> Result<Watched<'_, P>, GaveUp<'_, P>>
            requires threads { IsSync R.row × IsSync G.row }
            requires idle { IsIdle owners.now seat }
            requires sides { ArePlaced owners.now sides.items }
            requires few { length sides.items < 2 ^ 32 }
            requires events { length sides.items ≤ length events.now.lines.items }
            requires streams { length client.merge.streams ≤ length events.now.lines.items }
            requires read { AreRead client.merge.streams client.texts.items }
            ensures watched { IfOk result (HasWatchedAll client.entry) }
            ensures gave_up { IfErr result (λ g. HaveAsked client.entry.merge.streams g.client.merge.streams) }
            ensures started { IfOk result (λ _. munging ≡ Worker.Started) }
        {
            if munging == Worker::Refused {
                return Err(give_up(client, events));
            }
            watch_sides(rt, alloc, owners, seat, sides, client, events, gate)
        },
    );
    watched
}
