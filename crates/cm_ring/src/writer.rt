// The end that puts samples.
ghost use Rattle.std.specs.Prelude.{◌≡◌, ◌+◌, ◌-◌, ◌<◌, ◌≤◌, slice_index, length, Some, IfOk, IfErr, IsTrue};
ghost use Rattle.std.specs.Arc.{arc_value};
ghost use Rattle.cm_ring_core.specs.Lawful.{first_writer, MayEndAs};
ghost use Rattle.cm_ring.specs.Roles.{closed_as};
ghost use Rattle.cm_ring.specs.Seated.{IsSeatOf};

use crate::place::{place_from, word_of, word_of_end};
use crate::steps::{
    FIRST_CELL, RingSeat, RingTable, load_read, load_stop, publish_written, store_end, store_sample,
};
use cm_ring_core::cell::cell_after;
use cm_ring_core::view::{End, EndKind};
use cm_sample::planned::Planned;
use std::alloc::Global;
use std::marker::Model;
use std::sync::Arc;

/// A sample found no room: it is as far after the released samples as there are cells.
#[derive(Clone, Copy, PartialEq, Eq, Debug, Drop)]
pub struct Full {
    /// The sample's place.
    pub place: u64,
    /// How many samples were released, by a look in this call.
    pub freed: u64,
}

/// The writer of a ring: it puts the samples of the ring's plan, in their order.
#[derive(Drop)]
pub struct Writer<P: Planned> {
    table: Arc<RingTable<P>, Global>,
    seat: RingSeat,
    base: u32,
    size: usize,
    next: u64,
    freed: u64,
    cell: usize,
}

impl<P: Planned> Model for Writer<P> {
    ghost use Rattle.std.specs.Arc.{arc_value};
    ghost use Rattle.cm_ring.specs.Roles.{Writing, writing, IsSoundWriter};

    ghost Value = { Writing };

    ghost view = { λ a. writing a.seat };

    ghost invariant = { λ a. IsSoundWriter P.samples (arc_value a.table).shared a.seat a.base a.size a.next a.freed a.cell };
}

impl<P: Planned> Writer<P> {
    pub(crate) fn new(
        table: Arc<RingTable<P>, Global>,
        seat: RingSeat,
        base: u32,
        size: usize,
    ) -> Writer<P>
        requires of { IsSeatOf P.samples (arc_value table).shared seat }
        requires first { (seat.me.0.writer ≡ Some first_writer) × (size ≡ seat.me.0.ring.size) × (seat.me.0.ring.base ≡ base) }
        ensures { result ≡ record { table = seat.table_id; ring = seat.me.0.ring; part = first_writer } }
    {
        Writer {
            table,
            seat,
            base,
            size,
            next: 0,
            freed: 0,
            cell: 0,
        }
    }

    /// The number of cells.
    pub fn size(&self) -> usize
        ensures size { result ≡ self.now.ring.size }
        ensures some { 0 < result }
        ensures few { result ≤ 1048576 }
    {
        self.size
    }

    // A look at the released count.
    fn look(&mut self)
        ensures same { self.new ≡ record self.old { part = record self.old.part { freed = self.new.part.freed; at = self.old.part.next; read_looks = self.old.part.read_looks + 1 } } }
        ensures later { self.old.part.freed ≤ self.new.part.freed }
    {
        let word = load_read(&self.table.shared, &mut self.seat);
        self.freed = place_from(self.base, self.freed, word);
    }

    // Stores the next sample into its cell.
    fn store(&mut self, word: u32)
        requires room { self.old.part.next < self.old.part.freed + self.old.ring.size }
        requires plan { (self.old.part.next < length self.old.ring.samples) × (slice_index self.old.ring.samples self.old.part.next ≡ word) }
        ensures { self.new ≡ record self.old { part = record self.old.part { next = self.old.part.next + 1 } } }
    {
        let cell = self.cell + FIRST_CELL;
        store_sample(&self.table.shared, &mut self.seat, cell, word as u64);
        self.next += 1;
        self.cell = cell_after(self.cell, 1, self.size);
    }

    // How many samples fit, by the last look.
    fn room(&self) -> u64
        ensures value { result ≡ self.now.part.freed + self.now.ring.size - self.now.part.next }
        ensures within { self.now.part.next ≤ self.now.part.freed + self.now.ring.size }
    {
        self.size as u64 - (self.next - self.freed)
    }

    /// Stores the plan's next sample, unpublished. It gives `Full` only where a look at the released
    /// count in this call found no room (Comedi: `comedi_buf_write_alloc`); any other look finds a sample
    /// more that was released.
    pub fn put(&mut self, word: u32) -> Result<(), Full>
        requires { (self.old.part.next < length self.old.ring.samples) × (slice_index self.old.ring.samples self.old.part.next ≡ word) }
        ensures same { self.new ≡ record self.old { part = record self.old.part { next = self.new.part.next; freed = self.new.part.freed; at = self.new.part.at; read_looks = self.new.part.read_looks } } }
        ensures stored { IfOk result (λ _. self.new.part.next ≡ self.old.part.next + 1) }
        ensures full { IfErr result (λ f. (f.place ≡ self.old.part.next) × (f.place ≡ f.freed + self.old.ring.size) × (self.new.part ≡ record self.old.part { freed = f.freed; at = f.place; read_looks = self.old.part.read_looks + 1 })) }
        ensures later { self.old.part.freed ≤ self.new.part.freed }
        ensures looked { IfOk result (λ _. self.new.part.read_looks + self.old.part.freed ≤ self.old.part.read_looks + self.new.part.freed) }
    {
        if self.room() == 0 {
            self.look();
            if self.room() == 0 {
                return Err(Full {
                    place: self.next,
                    freed: self.freed,
                });
            }
        }
        self.store(word);
        Ok(())
    }

    /// Publishes all that was put (Comedi: `comedi_buf_write_free`).
    pub fn publish(&mut self)
        ensures { self.new ≡ record self.old { part = record self.old.part { written = self.old.part.next } } }
    {
        let count = word_of(self.base, self.next);
        publish_written(&self.table.shared, &mut self.seat, count);
    }

    /// Whether the reader has asked for a stop, by a look in this call. Once true, it stays true.
    pub fn stop_asked(&mut self) -> bool
        ensures same { self.new ≡ record self.old { part = record self.old.part { saw_stop = result; stop_looks = self.old.part.stop_looks + 1 } } }
        ensures stays { IsTrue self.old.part.saw_stop → IsTrue result }
    {
        load_stop(&self.table.shared, &mut self.seat) == 1
    }

    /// Ends the stream after all that was put, which has to be published: with `Done` where it is
    /// the whole plan, with `Overrun` where the ring isn't paced and a look after the last sample
    /// found no room for the next one, and with `Cancelled` where a stop was seen.
    pub fn end(self, kind: EndKind) -> Closed<P>
        requires published { self.part.written ≡ self.part.next }
        requires kind { MayEndAs self.ring self.part.at self.part.freed self.part.saw_stop kind self.part.written }
        ensures { result ≡ closed_as self kind }
    {
        let end = End {
            kind,
            count: self.next,
        };
        let Writer {
            table,
            mut seat,
            base: _,
            size: _,
            next: _,
            freed: _,
            cell: _,
        } = self;
        let word = word_of_end(&end);
        store_end(&table.shared, &mut seat, word);
        Closed { table, seat, end }
    }
}

/// A writer after its end.
#[derive(Drop)]
pub struct Closed<P: Planned> {
    table: Arc<RingTable<P>, Global>,
    seat: RingSeat,
    end: End,
}

impl<P: Planned> Model for Closed<P> {
    ghost use Rattle.cm_ring.specs.Roles.{Closing, closing, IsClosed};

    ghost Value = { Closing };

    ghost view = { λ a. closing a.seat a.end };

    ghost invariant = { λ a. IsClosed a.seat a.end };
}

impl<P: Planned> Closed<P> {
    ghost use Rattle.std.specs.Prelude.{◌≡◌};

    /// The end that the writer stored.
    pub fn end(&self) -> End
        ensures { result ≡ self.now.end }
    {
        self.end
    }
}
