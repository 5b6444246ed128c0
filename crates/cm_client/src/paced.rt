// The board of a paced ring.
ghost use Rattle.std.specs.Prelude.{◌≡◌, true};
ghost use Rattle.cm_ring_core.specs.Lawful.{first_writer};
ghost use Rattle.cm_client.specs.Served.{HasServed};
ghost use Rattle.cm_client.specs.Streamed.{EndsTruly, HeedsStop};

use crate::boarding::put_words;
use crate::waiting::Waiting;
use crate::words::Words;
use cm_base::gate::Gate;
use cm_ring::writer::{Closed, Writer};
use cm_sample::planned::Planned;
use std::marker::Model;
use std::sync::Wait;

/// A board that waits for room: the writer of a paced ring, and all words of that ring's plan.
/// Contracts see of it the ring.
#[derive(Drop)]
pub struct PacedBoard<P: Planned, W: Words> {
    writer: Writer<P>,
    words: W,
}

impl<P: Planned, W: Words> Model for PacedBoard<P, W> {
    ghost use Rattle.cm_ring_core.specs.declared.view.RingConstants.{RingConstants};
    ghost use Rattle.cm_client.specs.Paced.{IsPacedBoard};

    ghost Value = { RingConstants };

    ghost view = { λ b. b.writer.ring };

    ghost invariant = { λ b. IsPacedBoard b.writer (W.all b.words) (W.place b.words) };
}

impl<P: Planned, W: Words> PacedBoard<P, W> {
    /// Of a fresh writer, and of words of which none was given yet.
    pub fn new(writer: Writer<P>, words: W) -> PacedBoard<P, W>
        requires fresh { writer.part ≡ first_writer }
        requires paced { writer.ring.paced ≡ true }
        requires plan { (writer.ring.samples ≡ W.all words) × (W.place words ≡ 0) }
        ensures { result ≡ writer.ring }
    {
        PacedBoard { writer, words }
    }

    /// Puts all words and ends with `Done`, or ends with `Cancelled` when a look found the stop. It waits in the way
    /// that it is given, hands on all that it has put by that, and gives it back.
    pub fn put_all<R: Wait + Sync, S: Waiting, G: Gate>(
        self,
        rt: &R,
        waiting: S,
        gate: &G,
        who: u32,
    ) -> (Closed<P>, S)
        ensures of { result.0.ring ≡ self }
        ensures end { EndsTruly result.0 }
        ensures heeds { HeedsStop result.0 }
        ensures served { HasServed S.has_handed_on S.has_waited S.has_ended 0 result.0.end.count waiting result.1 }
    {
        let PacedBoard { writer, words } = self;
        put_words(rt, writer, words, true, waiting, gate, who)
    }
}
