// What a worker of a ring hands on to the next one.

use crate::waiting::Waiting;
use cm_base::prover::shows;
use cm_ring::munger::Munger;
use cm_ring::reader::Reader;
use cm_ring::writer::{Closed, Writer};
use cm_sample::planned::Planned;
use std::sync::Wait;

/// An end of a ring, by what it has shown to the others.
pub trait RingEnd {
    ghost use Rattle.std.specs.Prelude.{ℕ};

    /// How many samples, or cells that are free again, it has shown.
    ghost shown: { Self → ℕ };

    /// How many more it has finished.
    ghost kept_back: { Self → ℕ };

    /// Whether it has shown that it has ended, or that the writer is to end.
    ghost ended: { Self → Type 0 };
}

impl<P: Planned> RingEnd for Writer<P> {
    ghost use Rattle.std.specs.Prelude.{◌-◌};

    ghost shown = { λ w. w.part.written };

    ghost kept_back = { λ w. w.part.next - w.part.written };

    ghost ended = { λ _. ⊥ };
}

impl<P: Planned> RingEnd for Closed<P> {
    ghost use Rattle.std.specs.Prelude.{◌-◌};

    ghost shown = { λ c. c.part.written };

    ghost kept_back = { λ c. c.part.next - c.part.written };

    ghost ended = { λ _. Unit {0} };
}

impl<P: Planned> RingEnd for Munger<P> {
    ghost use Rattle.cm_client.specs.Streamed.{HasMungedAll};

    ghost shown = { λ m. m.part.munged };

    ghost kept_back = { λ _. 0 };

    ghost ended = { HasMungedAll };
}

impl<P: Planned> RingEnd for Reader<P> {
    ghost use Rattle.cm_client.specs.Handing.{IsOver};

    ghost shown = { λ r. r.part.released };

    ghost kept_back = { λ _. 0 };

    ghost ended = { IsOver };
}

/// How a worker waits, with how many samples, or cells, it has handed on to the next one, and whether they were
/// none the last time. The worker hands on what its end of the ring has shown, waits only where that is all, has to
/// wait before it hands on again where they were none, and has to end it: a `Handover` isn't let go.
pub struct Handover<W: Waiting> {
    way: W,
    handed: u64,
    idle: bool,
}

impl<W: Waiting> Handover<W> {
    ghost use Rattle.std.specs.Prelude.{◌≡◌, ◌+◌, false, nat_eq};
    ghost use Rattle.cm_client.specs.Handing.{in_64_bits};

    /// Of a worker whose end has shown so many.
    pub fn new(way: W, handed: u64) -> Handover<W>
        ensures way { result.way ≡ way }
        ensures handed { result.handed ≡ handed }
        ensures idle { result.idle ≡ false }
    {
        Handover {
            way,
            handed,
            idle: false,
        }
    }

    /// Hands on so many more, which the end has shown. Where they are none, the worker has nothing to do.
    pub fn hand_on<E: RingEnd>(&mut self, by: &E, count: u32)
        requires shown { in_64_bits (E.shown by.now) ≡ in_64_bits (self.old.handed + count) }
        requires waited { self.old.idle ≡ false }
        ensures handed { self.new.handed ≡ in_64_bits (E.shown by.now) }
        ensures idle { self.new.idle ≡ nat_eq count 0 }
        ensures way { W.has_handed_on self.old.way count self.new.way }
    {
        shows(by);
        self.handed = self.handed.saturating_add(u64::from(count));
        self.idle = count == 0;
        self.way.hand_on(count);
    }

    /// The worker has found nothing to do: it waits, or looks once more.
    pub fn wait<R: Wait, E: RingEnd>(&mut self, rt: &R, by: &E)
        requires shown { E.kept_back by.now ≡ 0 }
        requires handed { self.old.handed ≡ in_64_bits (E.shown by.now) }
        ensures handed { self.new.handed ≡ self.old.handed }
        ensures idle { self.new.idle ≡ false }
        ensures way { W.has_waited self.old.way self.new.way }
    {
        shows(by);
        self.idle = false;
        self.way.wait(rt);
    }

    /// The worker has ended, and its end of the ring has shown it. Gives how it waited.
    pub fn end<E: RingEnd>(self, by: &E) -> W
        requires { E.ended by.now }
        ensures { W.has_ended self.way result }
    {
        shows(by);
        let Handover {
            mut way,
            handed: _,
            idle: _,
        } = self;
        way.end();
        way
    }
}
