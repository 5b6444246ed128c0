// The end that munges published samples in place.
ghost use Rattle.std.specs.Prelude.{◌≡◌, ◌+◌, ◌-◌, ◌%◌, ◌<◌, ◌≤◌, min, length, Option, Some, IfSome};
ghost use Rattle.std.specs.Arc.{arc_value};
ghost use Rattle.cm_ring_core.specs.declared.view.End.{End};
ghost use Rattle.cm_ring_core.specs.Lawful.{first_munger};
ghost use Rattle.cm_sample.specs.Rule.{IsRule};
ghost use Rattle.cm_ring.specs.Seated.{IsSeatOf, IsSameSeat};
ghost use Rattle.cm_ring.specs.Roles.{MayRun, HasRun, IsMunging};

use crate::place::{end_from, place_from, word_of};
use crate::steps::{
    FIRST_CELL, RingSeat, RingTable, RingWords, load_raw_cell, load_written, munge_cell,
    munger_load_end, publish_munged,
};
use cm_ring_core::cell::cell_after;
use cm_ring_core::view::End;
use cm_sample::planned::Planned;
use cm_sample::rule::MungeRule;
use std::alloc::Global;
use std::marker::Model;
use std::sync::Arc;

// Munges the word of the next published place.
fn munge_one<P: Planned>(
    table: &RingWords<P>,
    seat: &mut RingSeat,
    rule: &MungeRule,
    place: u64,
    cell: usize,
)
    requires of { IsSeatOf P.samples table.now seat.old }
    requires may { MayRun rule.now place 1 seat.old.me.0 }
    requires cell { cell ≡ place % seat.old.me.0.ring.size }
    ensures same { IsSameSeat seat.old seat.new }
    ensures run { HasRun 1 seat.old.me.0 seat.new.me.0 }
{
    let word = cell + FIRST_CELL;
    let raw = load_raw_cell(table, seat, word) as u32;
    munge_cell(table, seat, word, rule.apply(place, raw) as u64);
}

// Munges the words of so many published places, from that of a cell on.
fn munge_run<P: Planned>(
    table: &RingWords<P>,
    seat: &mut RingSeat,
    rule: &MungeRule,
    size: usize,
    from: u64,
    cell: usize,
    count: usize,
)
    requires of { IsSeatOf P.samples table.now seat.old }
    requires may { MayRun rule.now from count seat.old.me.0 }
    requires size { (size ≡ seat.old.me.0.ring.size) × (size ≤ 1048576) × (count ≤ size) }
    requires cell { (cell ≡ from % size) × (cell < size) }
    ensures same { IsSameSeat seat.old seat.new }
    ensures run { HasRun count seat.old.me.0 seat.new.me.0 }
{
    for i in 0..count {
        let here = cell_after(cell, i, size);
        munge_one(table, seat, rule, from + i as u64, here);
    }
}

/// The munger of a ring: it follows the writer, and munges each published sample in its cell.
#[derive(Drop)]
pub struct Munger<P: Planned> {
    table: Arc<RingTable<P>, Global>,
    seat: RingSeat,
    rule: MungeRule,
    base: u32,
    size: usize,
    munged: u64,
    avail: u64,
    cell: usize,
}

impl<P: Planned> Model for Munger<P> {
    ghost use Rattle.std.specs.Arc.{arc_value};
    ghost use Rattle.cm_ring.specs.Roles.{Munging, munging, IsSoundMunger};

    ghost Value = { Munging };

    ghost view = { λ a. munging a.seat };

    ghost invariant = { λ a. IsSoundMunger P.samples (arc_value a.table).shared a.seat a.rule a.base a.size a.munged a.avail a.cell };
}

impl<P: Planned> Munger<P> {
    pub(crate) fn new(
        table: Arc<RingTable<P>, Global>,
        seat: RingSeat,
        rule: MungeRule,
        base: u32,
        size: usize,
    ) -> Munger<P>
        requires of { IsSeatOf P.samples (arc_value table).shared seat }
        requires first { (seat.me.0.munger ≡ Some first_munger) × (size ≡ seat.me.0.ring.size) × (seat.me.0.ring.base ≡ base) }
        requires rule { (rule ≡ seat.me.0.ring.rule) × IsRule rule }
        ensures { result ≡ record { table = seat.table_id; ring = seat.me.0.ring; part = first_munger } }
    {
        Munger {
            table,
            seat,
            rule,
            base,
            size,
            munged: 0,
            avail: 0,
            cell: 0,
        }
    }

    /// How many samples were munged.
    pub fn munged(&self) -> u64
        ensures value { result ≡ self.now.part.munged }
        ensures places { IsMunging self.now }
    {
        self.munged
    }

    // A look at the written count.
    fn look(&mut self)
        ensures same { self.new ≡ record self.old { part = record self.old.part { avail = self.new.part.avail; written_looks = self.old.part.written_looks + 1 } } }
        ensures later { self.old.part.avail ≤ self.new.part.avail }
        ensures ended { (e : End) → self.old.part.found ≡ Some e → self.new.part.avail ≡ e.count }
        ensures places { IsMunging self.new }
    {
        let word = load_written(&self.table.shared, &mut self.seat);
        self.avail = place_from(self.base, self.avail, word);
    }

    // Munges so many samples, and shows them to the reader.
    fn run(&mut self, count: usize)
        requires { self.old.part.munged + count ≤ self.old.part.avail }
        ensures { self.new ≡ record self.old { part = record self.old.part { munged = self.old.part.munged + count; exchanged = self.old.part.munged + count } } }
    {
        munge_run(
            &self.table.shared,
            &mut self.seat,
            &self.rule,
            self.size,
            self.munged,
            self.cell,
            count,
        );
        self.munged += count as u64;
        self.cell = cell_after(self.cell, count, self.size);
        let shown = word_of(self.base, self.munged);
        publish_munged(&self.table.shared, &mut self.seat, shown);
    }

    /// Munges up to `n` of the published samples, and reports how many. Where `n` isn't 0 it looks at
    /// the written count once, so that 0 comes only where all that is published is munged. Where an
    /// end was found, the look gives its count.
    pub fn munge_some(&mut self, n: u32) -> u32
        ensures few { result ≡ min n (self.new.part.avail - self.old.part.munged) }
        ensures same { self.new ≡ record self.old { part = record self.old.part { munged = self.old.part.munged + result; exchanged = self.new.part.exchanged; avail = self.new.part.avail; written_looks = self.new.part.written_looks } } }
        ensures none { n ≡ 0 → self.new ≡ self.old }
        ensures some { 0 < n → self.new.part.written_looks ≡ self.old.part.written_looks + 1 }
        ensures later { self.old.part.avail ≤ self.new.part.avail }
        ensures ended { 0 < n → (e : End) → self.old.part.found ≡ Some e → self.new.part.avail ≡ e.count }
        ensures places { 0 < n → IsMunging self.new }
    {
        if n == 0 {
            return 0;
        }
        self.look();
        let count = (self.avail - self.munged).min(n as u64) as u32;
        self.run(count as usize);
        count
    }

    /// The end of the stream, by a look in this call. None comes only where the look found none. An
    /// end that was found stays.
    pub fn ended(&mut self) -> Option<End>
        ensures same { self.new ≡ record self.old { part = record self.old.part { found = result; end_looks = self.old.part.end_looks + 1 } } }
        ensures stays { (e : End) → self.old.part.found ≡ Some e → result ≡ Some e }
        ensures says { IfSome result (λ e. self.old.part.avail ≤ e.count) }
    {
        let word = munger_load_end(&self.table.shared, &mut self.seat);
        end_from(word)
    }
}
