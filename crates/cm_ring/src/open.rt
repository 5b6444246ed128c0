// How a ring is opened.
ghost use Rattle.std.specs.Prelude.{◌≡◌, ◌+◌, ◌<◌, ◌≤◌, length, IfOk, replicate, slice_set};
ghost use Rattle.std.specs.Arc.{arc_value};
ghost use Rattle.cm_sample.specs.Rule.{IsRule};
ghost use Rattle.cm_ring_core.specs.Lawful.{constants_of, opened, first_writer, first_munger, first_reader};
ghost use Rattle.cm_ring.specs.Seated.{IsSeatOf};

use crate::munger::Munger;
use crate::place::word_of;
use crate::reader::Reader;
use crate::steps::{
    FIRST_CELL, MUNGED, READ, RingSeat, RingTable, WRITTEN, split_munger, split_reader,
};
use crate::writer::Writer;
use atomic_table::Table;
use cm_base::transfer::NoMemory;
use cm_ring_core::rule::OpenedWith;
use cm_sample::planned::Planned;
use cm_sample::rule::MungeRule;
use std::alloc::Global;
use std::sync::Arc;

// The words of a ring whose counts start at a number.
fn first_words(alloc: Global, size: u64, first: u64) -> Result<Vec<u64>, NoMemory>
    requires { size ≤ 1048576 }
    ensures { IfOk result (λ v. v.items ≡ slice_set (slice_set (slice_set (replicate (size + 5) 0) 0 first) 1 first) 2 first) }
{
    let mut words = vec![in alloc; 0u64; size as usize + FIRST_CELL]?;
    let row = words.as_mut_slice();
    row[READ] = first;
    row[MUNGED] = first;
    row[WRITTEN] = first;
    Ok(words)
}

// The table of a ring, and the seat that has all roles.
fn lay<P: Planned>(
    alloc: Global,
    with: &OpenedWith<P>,
) -> Result<(Arc<RingTable<P>, Global>, RingSeat), NoMemory>
    requires size { (0 < with.now.size) × (with.now.size ≤ 1048576) }
    requires plan { length (P.samples with.now.plan) ≤ 1099511627776 }
    ensures { IfOk result (λ t. IsSeatOf P.samples (arc_value t.0).shared t.1 × (t.1.me.0 ≡ opened (constants_of P.samples with.now))) }
{
    let words = first_words(alloc, with.size, word_of(with.base, 0))?;
    let (table, seat) = Table::of_words(alloc, words.as_slice(), with)?;
    Ok((Arc::new(alloc, table)?, seat))
}

/// Opens a ring of `size` cells, from 1 to 1,048,576, for the samples of a plan of at most 2^40, which
/// are munged by a rule. On a paced ring the writer never ends with an overrun. The shared counts
/// start at `base`; places count from 0 whatever it is. The three ends may go to three threads.
pub fn open<P: Planned + Drop>(
    alloc: Global,
    size: u32,
    rule: MungeRule,
    paced: bool,
    base: u32,
    plan: P,
) -> Result<(Writer<P>, Munger<P>, Reader<P>), NoMemory>
    requires size { (0 < size) × (size ≤ 1048576) }
    requires rule { IsRule rule }
    requires plan { length (P.samples plan) ≤ 1099511627776 }
    ensures ring { IfOk result (λ t. t.0.ring ≡ record { size = size; rule = rule; samples = P.samples plan; paced = paced; base = base }) }
    ensures one { IfOk result (λ t. (t.1.table ≡ t.0.table) × (t.2.table ≡ t.0.table) × (t.1.ring ≡ t.0.ring) × (t.2.ring ≡ t.0.ring)) }
    ensures fresh { IfOk result (λ t. (t.0.part ≡ first_writer) × (t.1.part ≡ first_munger) × (t.2.part ≡ first_reader) × (t.2.mapped ≡ 0)) }
{
    let with = OpenedWith {
        size: size as u64,
        rule,
        paced,
        base,
        plan,
    };
    let (table, mut seat) = lay(alloc, &with)?;
    let munger_table = Arc::try_clone(&table)?;
    let reader_table = Arc::try_clone(&table)?;
    let reader_seat = split_reader(&table.shared, &mut seat);
    let munger_seat = split_munger(&table.shared, &mut seat);
    let size = size as usize;
    Ok((
        Writer::new(table, seat, base, size),
        Munger::new(munger_table, munger_seat, with.rule, base, size),
        Reader::new(reader_table, reader_seat, base, size),
    ))
}
