// What is known of the commands of a subdevice: a fact for each line of its block, whether it stands there or not.
ghost use Rattle.std.specs.Prelude.{◌≡◌, ◌+◌, ◌<◌, ◌≤◌, ◌^◌, ◌++◌, ◌∷◌, [], codes, length, OnOk};
ghost use Rattle.cm_facts.specs.CommandFacts as spec;
ghost use Rattle.cm_facts.specs.FactLine.{fact_line};

use crate::fact::{FactWord, put_count, put_fact};
use crate::names::{list_order_name, may_repeat, rounding_name, trigger_name, yes_or_no};
use cm_base::transfer::NoMemory;
use cm_board::board::{Divisors, Fifo, Forbid, ListOrder, ListRules, Sub};
use cm_running::text::put_spaced;

/// Appends what is known of the commands of a subdevice that takes them.
#[tactic(auto, unfolding(crate::specs::CommandFacts::command_facts))]
pub(crate) fn put_commands(text: &mut Vec<u8>, index: u32, sub: &Sub) -> Result<(), NoMemory>
    ensures { OnOk result (text.new.items ≡ text.old.items ++ spec.command_facts index sub.now) }
{
    put_times(text, index, sub)?;
    put_sizes(text, index, sub)?;
    put_rules(text, index, sub)?;
    put_clock(text, index, sub)?;
    put_scan(text, index, sub)?;
    put_lists(text, index, sub.lists)
}

/// Appends numbers of a subdevice.
pub(crate) fn put_number(text: &mut Vec<u8>, key: &[u8], numbers: &[u32]) -> Result<(), NoMemory>
    ensures { OnOk result (text.new.items ≡ text.old.items ++ spec.number_fact key.now numbers.now) }
{
    put_fact(text, key, numbers, &[])
}

/// Appends whether something holds of a subdevice.
pub(crate) fn put_flag(
    text: &mut Vec<u8>,
    key: &[u8],
    index: u32,
    holds: bool,
) -> Result<(), NoMemory>
    ensures { OnOk result (text.new.items ≡ text.old.items ++ spec.flag_fact key.now index holds) }
{
    put_fact(text, key, &[index], &[FactWord::Fixed(yes_or_no(holds))])
}

// Appends the sources, the tick, and the times of scans and of conversions.
#[tactic(auto, unfolding(crate::specs::CommandFacts::time_facts))]
fn put_times(text: &mut Vec<u8>, index: u32, sub: &Sub) -> Result<(), NoMemory>
    ensures { OnOk result (text.new.items ≡ text.old.items ++ spec.time_facts index sub.now) }
{
    put_trigger_sources(text, index, sub)?;
    put_number(text, b"tick", &[index, tick_of(sub)])?;
    put_number(text, b"scan", &[index, sub.scan_min, sub.scan_max])?;
    put_number(text, b"convert", &[index, sub.conv_min, sub.conv_max])
}

// Returns what the times of a subdevice are multiples of.
fn tick_of(sub: &Sub) -> u32
    ensures { result ≡ sub.now.timers.tick }
{
    let timers = &sub.timers;
    timers.tick
}

// Appends the sources that each of the five triggers may have.
fn put_trigger_sources(text: &mut Vec<u8>, index: u32, sub: &Sub) -> Result<(), NoMemory>
    ensures { OnOk result (text.new.items ≡ text.old.items ++ spec.sources_fact index sub.now.masks) }
{
    let masks = sub.sources;
    let words = [
        FactWord::Sources(masks[0]),
        FactWord::Sources(masks[1]),
        FactWord::Sources(masks[2]),
        FactWord::Sources(masks[3]),
        FactWord::Sources(masks[4]),
    ];
    put_fact(text, b"sources", &[index], &words)
}

// Appends the longest list, the greatest stop count, the external lines, and the size of the buffer.
#[tactic(auto, unfolding(crate::specs::CommandFacts::size_facts))]
fn put_sizes(text: &mut Vec<u8>, index: u32, sub: &Sub) -> Result<(), NoMemory>
    ensures { OnOk result (text.new.items ≡ text.old.items ++ spec.size_facts index sub.now) }
{
    put_number(text, b"list", &[index, sub.list_max])?;
    put_number(text, b"scans", &[index, sub.scans_max])?;
    put_number(text, b"lines", &[index, sub.lines])?;
    put_number(text, b"buffer", &[index, sub.buffer])
}

// Appends what a channel list and an external line keep, the forbidden pairs, and the FIFO.
#[tactic(auto, unfolding(crate::specs::CommandFacts::rule_facts))]
fn put_rules(text: &mut Vec<u8>, index: u32, sub: &Sub) -> Result<(), NoMemory>
    ensures { OnOk result (text.new.items ≡ text.old.items ++ spec.rule_facts index sub.now) }
{
    put_flag(text, b"samerange", index, sub.lists.same_range)?;
    put_forbids(text, index, 0, &sub.forbidden)?;
    put_flag(text, b"invert", index, sub.invert)?;
    put_fifo(text, index, sub.fifo)
}

// Appends forbidden pairs, numbered from a number on.
#[tactic(auto, using(crate::proofs::Pieces::facts_more, crate::proofs::Pieces::none_more))]
fn put_forbids(
    text: &mut Vec<u8>,
    index: u32,
    number: usize,
    pairs: &[Forbid],
) -> Result<(), NoMemory>
    requires { number + length pairs.now < 2 ^ 64 }
    ensures { OnOk result (text.new.items ≡ text.old.items ++ spec.forbid_facts index number pairs.now) }
{
    match pairs {
        [] => Ok(()),
        [pair, more @ ..] => {
            put_forbid(text, index, number, *pair)?;
            put_forbids(text, index, number + 1, more)
        }
    }
}

// Appends two sources that may not stand together, each with its trigger.
fn put_forbid(text: &mut Vec<u8>, index: u32, number: usize, pair: Forbid) -> Result<(), NoMemory>
    ensures { OnOk result (text.new.items ≡ text.old.items ++ fact_line (codes "forbid") (index ∷ []) (spec.forbid_words number pair)) }
{
    let words = [
        FactWord::Number(number as u64),
        FactWord::Fixed(trigger_name(pair.field)),
        FactWord::Sources(pair.src),
        FactWord::Fixed(trigger_name(pair.other)),
        FactWord::Sources(pair.other_src),
    ];
    put_fact(text, b"forbid", &[index], &words)
}

// Appends the depth and the latency of a FIFO, both 0 without one.
fn put_fifo(text: &mut Vec<u8>, index: u32, fifo: Option<Fifo>) -> Result<(), NoMemory>
    ensures { OnOk result (text.new.items ≡ text.old.items ++ spec.fifo_fact index fifo) }
{
    match fifo {
        None => put_number(text, b"fifo", &[index, 0, 0]),
        Some(fifo) => put_number(text, b"fifo", &[index, fifo.depth, fifo.latency]),
    }
}

// Appends how many counters make the times, each of them, and how times are rounded.
#[tactic(auto, unfolding(crate::specs::CommandFacts::clock_facts))]
fn put_clock(text: &mut Vec<u8>, index: u32, sub: &Sub) -> Result<(), NoMemory>
    ensures { OnOk result (text.new.items ≡ text.old.items ++ spec.clock_facts index sub.now) }
{
    let clock = clock_of(sub);
    put_count(text, b"counters", &[index], clock.len())?;
    put_counters(text, index, 0, clock)?;
    put_fact(
        text,
        b"rounds",
        &[index],
        &[FactWord::Fixed(rounding_name(sub.rounding.own))],
    )?;
    put_flag(text, b"halfdown", index, sub.rounding.half_down)
}

// Returns the counters that make the times of a subdevice.
fn clock_of(sub: &Sub) -> &[Divisors]
    ensures clock { result.now ≡ sub.now.timers.clock }
    ensures few { length result.now ≤ 2 }
{
    let timers = &sub.timers;
    &timers.clock
}

// Appends counters, numbered from a number on.
#[tactic(auto, using(crate::proofs::Pieces::facts_more, crate::proofs::Pieces::none_more))]
fn put_counters(
    text: &mut Vec<u8>,
    index: u32,
    number: u32,
    counters: &[Divisors],
) -> Result<(), NoMemory>
    requires { number + length counters.now < 2 ^ 32 }
    ensures { OnOk result (text.new.items ≡ text.old.items ++ spec.counter_facts index number counters.now) }
{
    match counters {
        [] => Ok(()),
        [counter, more @ ..] => {
            put_counter(text, index, number, counter)?;
            put_counters(text, index, number + 1, more)
        }
    }
}

// Appends what a counter can divide by: all numbers from one to another, or those of a list.
fn put_counter(
    text: &mut Vec<u8>,
    index: u32,
    number: u32,
    counter: &Divisors,
) -> Result<(), NoMemory>
    ensures { OnOk result (text.new.items ≡ text.old.items ++ spec.counter_fact index number counter.now) }
{
    match counter {
        Divisors::Span(first, last) => {
            let words = [
                FactWord::Fixed(b"span"),
                FactWord::Number(u64::from(*first)),
                FactWord::Number(u64::from(*last)),
            ];
            put_fact(text, b"counter", &[index, number], &words)
        }
        Divisors::Listed(list) => {
            text.extend_from_slice(b"counter")?;
            put_spaced(text, &[index, number])?;
            text.extend_from_slice(b" list")?;
            put_spaced(text, list.as_slice())?;
            text.extend_from_slice(b"\n")?;
            Ok(())
        }
    }
}

// Appends what a timed scan holds at least.
#[tactic(auto, unfolding(crate::specs::CommandFacts::scan_facts))]
fn put_scan(text: &mut Vec<u8>, index: u32, sub: &Sub) -> Result<(), NoMemory>
    ensures { OnOk result (text.new.items ≡ text.old.items ++ spec.scan_facts index sub.now) }
{
    put_number(text, b"perchan", &[index, sub.least_scan.per_entry])?;
    put_flag(text, b"scanfits", index, sub.least_scan.holds)
}

// Appends what the entries of a channel list keep.
#[tactic(auto, using(crate::proofs::Pieces::facts_more), unfolding(crate::specs::CommandFacts::list_facts))]
fn put_lists(text: &mut Vec<u8>, index: u32, lists: ListRules) -> Result<(), NoMemory>
    ensures { OnOk result (text.new.items ≡ text.old.items ++ spec.list_facts index lists) }
{
    put_order(text, index, lists.order)?;
    put_flag(text, b"samearef", index, lists.same_reference)?;
    put_flag(text, b"samepolarity", index, lists.same_polarity)
}

// Appends the order of the channels in a list, and whether entries in this order may be repeated.
#[tactic(auto, unfolding(crate::specs::CommandFacts::order_facts))]
fn put_order(text: &mut Vec<u8>, index: u32, order: Option<ListOrder>) -> Result<(), NoMemory>
    ensures { OnOk result (text.new.items ≡ text.old.items ++ spec.order_facts index order) }
{
    put_fact(
        text,
        b"order",
        &[index],
        &[FactWord::Fixed(list_order_name(order))],
    )?;
    put_flag(text, b"repeat", index, may_repeat(order))
}
