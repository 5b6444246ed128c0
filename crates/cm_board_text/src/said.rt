// What the lines of a block say of its subdevice.
ghost use Rattle.std.specs.Prelude.{◌≡◌, ◌<◌, ◌-◌, ◌^◌, ◌+◌, ◌*◌, ◌++◌, ◌∷◌, [], filter, map, IfOk, OnOk};
ghost use Rattle.std.specs.Option.{option_map};
ghost use Rattle.cm_board.specs.Board as board;
ghost use Rattle.cm_board.specs.Rows as rows;
ghost use Rattle.cm_board.specs.Said as spec;
ghost use Rattle.cm_board.specs.Said.{first_of, first_or, sub_of};
ghost use Rattle.cm_board.specs.Slots.{of_row};
ghost use Rattle.cm_board.specs.View.{masks_of};
ghost use Rattle.cm_board.specs.declared.munge.Munge.TheVariants as munges;
ghost use Rattle.cm_board_text.specs.UncheckedView.{unchecked_text};

use crate::unchecked::Unchecked;
use cm_board::board::{
    ChanSet, Divisors, Fifo, Forbid, LeastScan, ListOrder, ListRules, Order, Range, Rounding,
    Timers, Way,
};
use cm_board::items::Item;
use cm_board::lines::{
    BITS, BUFFER, CHAN_BITS, CHAN_MUNGE, CHAN_MUNGE_NONE, CHAN_RANGE, CLOCK, CONVERT, FIFO, FORBID,
    HALF_DOWN, HOLDS, INVERT, LINES, LIST, MUNGE, MUNGE_NONE, ORDER, PER_ENTRY, RANGE,
    REPEATED_FORM, ROUNDS, ROW_COUNT, SAME_POLARITY, SAME_RANGE, SAME_REFERENCE, SCAN, SCANS,
    SOURCES, TICK,
};
use cm_board::munge::Munge;
use cm_board::said::{has_line, name_at, number_at, number_of, signed_at};
use cm_board::table::{Head, Value};
use std::alloc::{AllocError, Global};

// The greatest code of so many bits, 24 at most.
fn greatest(bits: u32) -> u32
    ensures { result ≡ spec.greatest bits }
{
    (1 << bits.min(24)) - 1
}

// The munge that a line says, whose row has this first form and this place for the bits.
fn munge_said(item: &Item, none: usize, at: usize) -> Munge
    ensures { result ≡ spec.munge_said none at item.now }
{
    Munge::by_form(
        item.form.saturating_sub(none),
        number_at(item.values.as_slice(), at),
    )
}

// The first line of a row.
fn first_line(items: &[Item], row: usize) -> Option<&Item>
    ensures { option_map (λ item. item.now) result ≡ first_of (of_row row items.now) }
{
    for item in items {
        if item.row == row {
            return Some(item);
        }
    }
    None
}

// The munge that the line of a row says, where it stands.
fn munge_of(items: &[Item], row: usize, none: usize, at: usize) -> Option<Munge>
    ensures { result ≡ first_of (map (spec.munge_said none at) (of_row row items.now)) }
{
    first_line(items, row).map(|item| munge_said(item, none, at))
}

// The greatest code that a line says after its channel.
fn maxdata_said(item: &Item) -> u32
    ensures { result ≡ spec.greatest (spec.number_at 1 item.now.values) }
{
    greatest(number_at(item.values.as_slice(), 1))
}

// The greatest code that the line of a row says, where it stands.
fn maxdata_of(items: &[Item], row: usize) -> Option<u32>
    ensures { result ≡ first_of (map (λ item. spec.greatest (spec.number_at 1 item.values)) (of_row row items.now)) }
{
    first_line(items, row).map(maxdata_said)
}

// The range that a line says from a place on.
fn range_said(item: &Item, at: u8) -> Range
    ensures { result ≡ spec.range_said at item.now }
{
    let values = item.values.as_slice();
    let at = at as usize;
    Range {
        min: signed_at(values, at),
        max: signed_at(values, at + 1),
        unit: number_at(values, at + 2).min(2) as u8,
    }
}

// Adds the range that a line of a row says.
fn push_range(ranges: &mut Vec<Range>, item: &Item, row: usize, at: u8) -> Result<(), AllocError>
    ensures { OnOk result (ranges.new.items ≡ ranges.old.items ++ map (spec.range_said at) (of_row row (item.now ∷ []))) }
{
    if item.row == row {
        ranges.push(range_said(item, at))?;
    }
    Ok(())
}

// The ranges that the lines of a row say.
fn ranges_of(alloc: Global, items: &[Item], row: usize, at: u8) -> Result<Vec<Range>, AllocError>
    ensures { IfOk result (λ ranges. ranges.items ≡ map (spec.range_said at) (of_row row items.now)) }
{
    let mut ranges = Vec::new(alloc);
    for item in items {
        push_range(&mut ranges, item, row, at)?;
    }
    Ok(ranges)
}

// The two sources that may not stand together by a line.
fn forbid_said(item: &Item) -> Forbid
    ensures { result ≡ spec.forbid_said item.now }
{
    let values = item.values.as_slice();
    Forbid {
        field: name_at(values, 0).min(4) as u8,
        src: number_at(values, 1),
        other: name_at(values, 2).min(4) as u8,
        other_src: number_at(values, 3),
    }
}

// Adds the sources that a line forbids.
fn push_forbid(forbidden: &mut Vec<Forbid>, item: &Item) -> Result<(), AllocError>
    ensures { OnOk result (forbidden.new.items ≡ forbidden.old.items ++ map spec.forbid_said (of_row rows.forbid (item.now ∷ []))) }
{
    if item.row == FORBID {
        forbidden.push(forbid_said(item))?;
    }
    Ok(())
}

// The sources that may not stand together.
fn forbidden_of(alloc: Global, items: &[Item]) -> Result<Vec<Forbid>, AllocError>
    ensures { IfOk result (λ forbidden. forbidden.items ≡ map spec.forbid_said (of_row rows.forbid items.now)) }
{
    let mut forbidden = Vec::new(alloc);
    for item in items {
        push_forbid(&mut forbidden, item)?;
    }
    Ok(forbidden)
}

// The FIFO that a line says.
fn fifo_said(item: &Item) -> Fifo
    ensures { result ≡ spec.fifo_said item.now }
{
    let values = item.values.as_slice();
    Fifo {
        depth: number_at(values, 0),
        latency: number_at(values, 1),
    }
}

// The FIFO, where a line says it.
fn fifo_of(items: &[Item]) -> Option<Fifo>
    ensures { result ≡ first_of (map spec.fifo_said (of_row rows.fifo items.now)) }
{
    first_line(items, FIFO).map(fifo_said)
}

// An order by its number among their names.
fn order_named(name: usize) -> Order
    ensures { result ≡ spec.order_named name }
{
    match name {
        0 => Order::Consecutive,
        1 => Order::Straight,
        2 => Order::First,
        3 => Order::Rising,
        _ => Order::Distinct,
    }
}

// The order of a list that a line says, which may be repeated.
fn order_said(item: &Item) -> ListOrder
    ensures { result ≡ spec.order_said item.now }
{
    ListOrder {
        order: order_named(name_at(item.values.as_slice(), 0)),
        repeats: item.form == REPEATED_FORM,
    }
}

// The order of a list, where a line says it.
fn order_of(items: &[Item]) -> Option<ListOrder>
    ensures { result ≡ first_of (map spec.order_said (of_row rows.order items.now)) }
{
    first_line(items, ORDER).map(order_said)
}

// What a list keeps.
fn lists_said(items: &[Item]) -> ListRules
    ensures { result ≡ spec.lists_said items.now }
{
    ListRules {
        same_range: has_line(items, SAME_RANGE),
        order: order_of(items),
        same_reference: has_line(items, SAME_REFERENCE),
        same_polarity: has_line(items, SAME_POLARITY),
    }
}

// A way of rounding by its number among their names.
fn way_named(name: usize) -> Way
    ensures { result ≡ spec.way_named name }
{
    match name {
        0 => Way::Nearest,
        1 => Way::Down,
        _ => Way::Up,
    }
}

// The way of rounding that a line says.
fn way_said(item: &Item) -> Way
    ensures { result ≡ spec.way_named (spec.name_at 0 item.now.values) }
{
    way_named(name_at(item.values.as_slice(), 0))
}

// The way of rounding, where a line says it.
fn way_of(items: &[Item]) -> Option<Way>
    ensures { result ≡ first_of (map (λ item. spec.way_named (spec.name_at 0 item.values)) (of_row rows.rounds items.now)) }
{
    first_line(items, ROUNDS).map(way_said)
}

// The counters of a line.
fn counters_in(alloc: Global, item: &Item) -> Result<Vec<Divisors>, AllocError>
    ensures { IfOk result (λ counters. counters.items ≡ spec.counters_in item.now.values) }
{
    let mut counters = Vec::new(alloc);
    for value in item.values.as_slice() {
        if let Value::Divisors(divisors) = value {
            counters.push(divisors.copy(alloc)?)?;
        }
    }
    Ok(counters)
}

// The counters of the board's clock, where it has one.
fn clock_said(alloc: Global, items: &[Item]) -> Result<Vec<Divisors>, AllocError>
    ensures { IfOk result (λ clock. clock.items ≡ first_or [] (map (λ item. spec.counters_in item.values) (of_row rows.clock items.now))) }
{
    match first_line(items, CLOCK) {
        Some(item) => counters_in(alloc, item),
        None => Ok(Vec::new(alloc)),
    }
}

// The timers of the board.
fn timers_said(alloc: Global, items: &[Item]) -> Result<Timers, AllocError>
    ensures { IfOk result (λ timers. timers ≡ spec.timers_said items.now) }
{
    Ok(Timers {
        tick: number_of(items, TICK, 0, 1),
        clock: clock_said(alloc, items)?,
    })
}

// How times are rounded.
fn rounding_said(items: &[Item]) -> Rounding
    ensures { result ≡ spec.rounding_said items.now }
{
    Rounding {
        own: way_of(items),
        half_down: has_line(items, HALF_DOWN),
    }
}

// What a timed scan holds at least.
fn least_scan_said(items: &[Item]) -> LeastScan
    ensures { result ≡ spec.least_scan_said items.now }
{
    LeastScan {
        per_entry: number_of(items, PER_ENTRY, 0, 0),
        holds: has_line(items, HOLDS),
    }
}

// The place before the rows of a channel.
fn channel_place(chan: u32) -> usize
    ensures place { result ≡ spec.channel_place chan 0 }
    ensures high { result < 2 ^ 40 }
{
    (chan as usize + 1) * ROW_COUNT
}

// What is said of one channel.
fn set_said(alloc: Global, items: &[Item], chan: u32) -> Result<ChanSet, AllocError>
    ensures { IfOk result (λ set. set ≡ spec.set_said items.now chan) }
{
    let place = channel_place(chan);
    let ranges = ranges_of(alloc, items, place + CHAN_RANGE, 1)?;
    Ok(ChanSet {
        chan,
        maxdata: maxdata_of(items, place + CHAN_BITS),
        munge: munge_of(items, place + CHAN_MUNGE, CHAN_MUNGE_NONE, 1),
        ranges,
    })
}

// Whether something is said of a channel.
fn says_any(set: &ChanSet) -> bool
    ensures { result ≡ board.says_any set.now }
{
    set.maxdata.is_some() || set.munge.is_some() || !set.ranges.is_empty()
}

// Adds what is said of a channel, where something is.
fn push_set(sets: &mut Vec<ChanSet>, set: ChanSet) -> Result<(), AllocError>
    ensures { OnOk result (sets.new.items ≡ sets.old.items ++ filter board.says_any (set ∷ [])) }
{
    if says_any(&set) {
        sets.push(set)?;
    }
    Ok(())
}

// The channels of which something is said, out of so many.
fn sets_said(alloc: Global, channels: u32, items: &[Item]) -> Result<Vec<ChanSet>, AllocError>
    ensures { IfOk result (λ sets. sets.items ≡ spec.sets_said channels items.now) }
{
    let mut sets = Vec::new(alloc);
    for chan in 0..channels {
        let set = set_said(alloc, items, chan)?;
        push_set(&mut sets, set)?;
    }
    Ok(sets)
}

// The sources that each trigger may have.
fn masks_said(items: &[Item]) -> [u32; 5]
    ensures { masks_of result ≡ spec.masks_said items.now }
{
    [
        number_of(items, SOURCES, 0, 0),
        number_of(items, SOURCES, 1, 0),
        number_of(items, SOURCES, 2, 0),
        number_of(items, SOURCES, 3, 0),
        number_of(items, SOURCES, 4, 0),
    ]
}

// The munge of the subdevice.
fn munge_of_all(items: &[Item]) -> Munge
    ensures { result ≡ first_or munges.Plain (map (spec.munge_said rows.munge_form 0) (of_row rows.munge items.now)) }
{
    match munge_of(items, MUNGE, MUNGE_NONE, 0) {
        Some(munge) => munge,
        None => Munge::Plain,
    }
}

/// The subdevice that the lines of a whole block describe, before the rules over them are asked.
pub(crate) fn describe_sub(
    alloc: Global,
    head: &Head,
    block: Vec<Item>,
) -> Result<Unchecked, AllocError>
    ensures { IfOk result (λ sub. unchecked_text sub ≡ sub_of head.now block.items) }
{
    let items: &[Item] = &block;
    let ranges = ranges_of(alloc, items, RANGE, 0)?;
    let forbidden = forbidden_of(alloc, items)?;
    let chans = sets_said(alloc, head.channels, items)?;
    let timers = timers_said(alloc, items)?;
    Ok(Unchecked {
        version: head.version,
        kind: head.kind,
        channels: head.channels,
        maxdata: greatest(number_of(items, BITS, 0, 1)),
        munge: munge_of_all(items),
        ranges,
        sources: masks_said(items),
        timers,
        scan_min: number_of(items, SCAN, 0, 1),
        scan_max: number_of(items, SCAN, 1, 1),
        conv_min: number_of(items, CONVERT, 0, 1),
        conv_max: number_of(items, CONVERT, 1, 1),
        list_max: number_of(items, LIST, 0, 1),
        scans_max: number_of(items, SCANS, 0, 1),
        lines: number_of(items, LINES, 0, 0),
        buffer: number_of(items, BUFFER, 0, 1),
        rounding: rounding_said(items),
        least_scan: least_scan_said(items),
        lists: lists_said(items),
        forbidden,
        chans,
        invert: has_line(items, INVERT),
        fifo: fifo_of(items),
        block,
    })
}
