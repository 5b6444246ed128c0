// The end that reads munged samples in place.
ghost use Rattle.std.specs.Prelude.{◌≡◌, ◌+◌, ◌-◌, ◌<◌, ◌≤◌, ◌++◌, min, length, drop, true, Some, IfSome};
ghost use Rattle.std.specs.Arc.{arc_value};
ghost use Rattle.cm_ring_core.specs.declared.view.End.{End};
ghost use Rattle.cm_ring_core.specs.Lawful.{first_reader, munged_at, IsFoundEnd};
ghost use Rattle.cm_ring.specs.Seated.{IsSeatOf};
ghost use Rattle.cm_ring.specs.Roles.{IsReading};
ghost use Rattle.cm_ring.specs.Samples.{piece};

use crate::place::{end_from, place_from, word_of};
use crate::steps::{
    FIRST_CELL, RingSeat, RingTable, ask_stop, load_cell, load_end, load_munged, publish_read,
};
use cm_base::prover::shows;
use cm_ring_core::cell::cell_after;
use cm_ring_core::view::End;
use cm_sample::planned::Planned;
use std::alloc::Global;
use std::marker::Model;
use std::sync::Arc;

/// The reader of a ring: it maps munged samples, reads them in their cells, and releases them.
#[derive(Drop)]
pub struct Reader<P: Planned> {
    table: Arc<RingTable<P>, Global>,
    seat: RingSeat,
    base: u32,
    size: usize,
    released: u64,
    known: u64,
    mapped: u32,
    cell: usize,
}

impl<P: Planned> Model for Reader<P> {
    ghost use Rattle.std.specs.Arc.{arc_value};
    ghost use Rattle.cm_ring.specs.Roles.{Reading, reading, IsSoundReader};

    ghost Value = { Reading };

    ghost view = { λ a. reading a.seat a.mapped };

    ghost invariant = { λ a. IsSoundReader P.samples (arc_value a.table).shared a.seat a.base a.size a.released a.known a.mapped a.cell };
}

impl<P: Planned> Reader<P> {
    pub(crate) fn new(
        table: Arc<RingTable<P>, Global>,
        seat: RingSeat,
        base: u32,
        size: usize,
    ) -> Reader<P>
        requires of { IsSeatOf P.samples (arc_value table).shared seat }
        requires first { (seat.me.0.reader ≡ Some first_reader) × (size ≡ seat.me.0.ring.size) × (seat.me.0.ring.base ≡ base) }
        ensures { result ≡ record { table = seat.table_id; ring = seat.me.0.ring; part = first_reader; mapped = 0 } }
    {
        Reader {
            table,
            seat,
            base,
            size,
            released: 0,
            known: 0,
            mapped: 0,
            cell: 0,
        }
    }

    /// How many samples are mapped.
    pub fn mapped(&self) -> u32
        ensures value { result ≡ self.now.mapped }
        ensures places { IsReading self.now }
    {
        self.mapped
    }

    /// How many samples were released.
    pub fn released(&self) -> u64
        ensures value { result ≡ self.now.part.released }
        ensures places { IsReading self.now }
    {
        self.released
    }

    // A look at the munged count.
    fn look(&mut self)
        ensures same { self.new ≡ record self.old { part = record self.old.part { known = self.new.part.known; munged_looks = self.old.part.munged_looks + 1 } } }
        ensures later { self.old.part.known ≤ self.new.part.known }
        ensures ended { (e : End) → self.old.part.found ≡ Some e → self.new.part.known ≤ e.count }
    {
        let word = load_munged(&self.table.shared, &mut self.seat);
        self.known = place_from(self.base, self.known, word);
    }

    /// Maps up to `n` samples more, and reports how many: as many as a look in this call at the
    /// munged count allows (Comedi: `comedi_buf_read_alloc`). Where an end was found, the look does
    /// not pass its count.
    pub fn map(&mut self, n: u32) -> u32
        ensures granted { result ≡ min n (self.new.part.known - self.old.part.released - self.old.mapped) }
        ensures same { self.new ≡ record self.old { part = record self.old.part { known = self.new.part.known; munged_looks = self.old.part.munged_looks + 1 }; mapped = self.old.mapped + result } }
        ensures later { self.old.part.known ≤ self.new.part.known }
        ensures ended { (e : End) → self.old.part.found ≡ Some e → self.new.part.known ≤ e.count }
        ensures places { IsReading self.new }
    {
        self.look();
        let left = self.known - self.released - self.mapped as u64;
        let granted = left.min(n as u64) as u32;
        self.mapped += granted;
        granted
    }

    /// The mapped sample that is `i` places after the released ones: the munged sample of the plan at
    /// its place, the same at each look.
    pub fn word(&mut self, i: u32) -> u32
        requires { i < self.old.mapped }
        ensures word { result ≡ munged_at self.old.ring (self.old.part.released + i) }
        ensures same { self.new ≡ self.old }
    {
        let cell = cell_after(self.cell, i as usize, self.size) + FIRST_CELL;
        load_cell(&self.table.shared, &mut self.seat, cell) as u32
    }

    /// Copies the first `count` mapped samples to the front of `out`: the munged samples of the plan at their
    /// places. They stay mapped.
    #[tactic(auto, using(crate::proofs::Pieces::copied_more))]
    pub fn copy_words(&mut self, out: &mut [u32], count: u32)
        requires mapped { count ≤ self.old.mapped }
        requires room { count ≤ length out.old }
        ensures copied { out.new ≡ piece self.old.ring self.old.part.released count ++ drop count out.old }
        ensures same { self.new ≡ self.old }
    {
        // This call shows where the places are.
        shows(&self.mapped());
        for i in 0..count {
            out[i as usize] = self.word(i);
        }
    }

    /// Releases the first `k` mapped samples, whose cells the writer may then use again (Comedi:
    /// `comedi_buf_read_free`).
    pub fn release(&mut self, k: u32)
        requires { k ≤ self.old.mapped }
        ensures { self.new ≡ record self.old { part = record self.old.part { released = self.old.part.released + k }; mapped = self.old.mapped - k } }
    {
        let released = self.released + k as u64;
        let count = word_of(self.base, released);
        publish_read(&self.table.shared, &mut self.seat, count);
        self.cell = cell_after(self.cell, k as usize, self.size);
        self.released = released;
        self.mapped -= k;
    }

    /// Asks the writer to stop.
    pub fn ask_stop(&mut self)
        ensures { self.new ≡ record self.old { part = record self.old.part { asked = true } } }
    {
        ask_stop(&self.table.shared, &mut self.seat);
    }

    /// The end of the stream, by a look in this call. None comes only where the look found none. An
    /// end that was found stays, and says: `Done` that its count is the length of the plan, `Overrun`
    /// that the ring isn't paced and has no more cells than the count, which is below the length of
    /// the plan, and `Cancelled` that this reader has asked for the stop.
    pub fn ended(&mut self) -> Option<End>
        ensures same { self.new ≡ record self.old { part = record self.old.part { found = result; end_looks = self.old.part.end_looks + 1 } } }
        ensures stays { (e : End) → self.old.part.found ≡ Some e → result ≡ Some e }
        ensures says { IfSome result (λ e. (self.old.part.known ≤ e.count) × IsFoundEnd self.old.ring self.old.part e.kind e.count) }
        ensures above { IfSome result (λ e. self.old.part.released + self.old.mapped ≤ e.count) }
    {
        let word = load_end(&self.table.shared, &mut self.seat);
        end_from(word)
    }
}
