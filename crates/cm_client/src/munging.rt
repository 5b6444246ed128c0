// A munger that follows its writer to the end.
ghost use Rattle.std.specs.Prelude.{◌≡◌, ◌+◌, IsTrue};
ghost use Rattle.cm_client.specs.Served.{HasServed};
ghost use Rattle.cm_client.specs.Streamed.{HasMungedAll};

use crate::handover::Handover;
use crate::waiting::Waiting;
use cm_ring::munger::Munger;
use cm_sample::planned::Planned;
use crossbeam_utils::Backoff;
use std::sync::Wait;

// How many samples are munged before the reader is shown them.
const PIECE: u32 = 256;

// After fewer samples the munger waits, so that the writer gets ahead of it: else each sample is fetched
// by itself from the writer's processor.
const SMALL: u32 = 64;

/// Munges in pieces until it has found the ring's end and munged all samples up to the end's count.
pub fn munge_work<R: Wait + Sync, P: Planned>(rt: &R, munger: Munger<P>) -> Munger<P>
    ensures of { (result.table ≡ munger.table) × (result.ring ≡ munger.ring) }
    ensures end { HasMungedAll result }
{
    let (munger, _) = munge_waiting(rt, munger, Backoff::new());
    munger
}

/// Munges as `munge_work` does, and waits for its writer in the way that the caller chooses. It hands on all that it
/// has munged by that, and gives it back.
pub fn munge_waiting<R: Wait + Sync, P: Planned, W: Waiting>(
    rt: &R,
    mut munger: Munger<P>,
    waiting: W,
) -> (Munger<P>, W)
    ensures of { (result.0.table ≡ munger.table) × (result.0.ring ≡ munger.ring) }
    ensures end { HasMungedAll result.0 }
    ensures served { HasServed W.has_handed_on W.has_waited W.has_ended munger.part.munged result.0.part.munged waiting result.1 }
{
    let mut handover = Handover::new(waiting, munger.munged());
    for _ in rt.forever() {
        let count = munger.munge_some(PIECE);
        handover.hand_on(&munger, count);
        if count >= SMALL {
            continue;
        }
        if has_all(&mut munger) {
            break;
        }
        handover.wait(rt, &munger);
    }
    let way = handover.end(&munger);
    (munger, way)
}

// Whether a look finds the end, and all samples up to it are munged.
fn has_all<P: Planned>(munger: &mut Munger<P>) -> bool
    ensures same { munger.new ≡ record munger.old { part = record munger.old.part { found = munger.new.part.found; end_looks = munger.old.part.end_looks + 1 } } }
    ensures all { IsTrue result → HasMungedAll munger.new }
    ensures none_left { HasMungedAll munger.new → IsTrue result }
{
    match munger.ended() {
        None => false,
        Some(end) => munger.munged() == end.count,
    }
}

/// How a client waits that munges its ring itself, and has no thread for it: where it finds too few
/// samples to read, it munges a piece more.
#[derive(Drop)]
pub struct OwnMunger<P: Planned> {
    munger: Munger<P>,
    backoff: Backoff,
}

impl<P: Planned> OwnMunger<P> {
    ghost use Rattle.std.specs.Prelude.{◌≡◌};

    /// Of the munger of the client's ring.
    pub fn new(munger: Munger<P>) -> OwnMunger<P>
        ensures { result.munger ≡ munger }
    {
        OwnMunger {
            munger,
            backoff: Backoff::new(),
        }
    }
}

impl<P: Planned> Waiting for OwnMunger<P> {
    ghost use Rattle.cm_client.specs.Waiting.{HasMungedPiece};

    ghost has_handed_on = { λ _ _ _. Unit {0} };

    ghost has_waited = { λ old new. HasMungedPiece old.munger new.munger };

    ghost has_ended = { λ _ _. Unit {0} };

    fn hand_on(&mut self, _count: u32) {}

    fn wait<R: Wait>(&mut self, _rt: &R) {
        if self.munger.munge_some(PIECE) < SMALL {
            self.backoff.snooze();
        }
    }

    fn end(&mut self) {}
}
