// The order of the channels in a list.
ghost use Rattle.std.specs.Prelude.{◌≡◌, ◌==◌, ◌≤◌, ◌+◌, length, map, nat_lt};
ghost use Rattle.std.specs.List.{list_any, range_with_len};
ghost use Rattle.std.specs.Str.{bytes_eq};
ghost use Rattle.cm_cmd.specs.Entry as bits;
ghost use Rattle.cm_test.specs.ValidList as spec;

use cm_board::board::{ListOrder, Order};
use cm_cmd::entry::chan;

/// Whether the entries keep an order, where one is asked for, on a subdevice with so many channels.
pub(crate) fn keep_order(channels: u32, asked: Option<ListOrder>, list: &[u32]) -> bool
    ensures { result ≡ spec.keep_order channels asked list.now }
{
    match asked {
        None => true,
        Some(asked) => are_ordered(channels, asked, list),
    }
}

// Whether all entries are in the order, or some first ones that are repeated.
fn are_ordered(channels: u32, asked: ListOrder, list: &[u32]) -> bool
    ensures { result ≡ spec.are_ordered channels asked list.now }
{
    if asked.repeats {
        has_segment(channels, asked.order, list)
    } else {
        follow(channels, asked.order, list)
    }
}

// Whether some first entries are in the order and are repeated over and over.
fn has_segment(channels: u32, order: Order, list: &[u32]) -> bool
    ensures { result ≡ list_any (spec.is_segment channels order list.now) (range_with_len 1 (length list.now)) }
{
    for count in 1..=list.len() {
        if is_segment(channels, order, list, count) {
            return true;
        }
    }
    false
}

// Whether the first `count` entries are in the order and are repeated. It compares entries first, since a
// list that begins again has its first entry there.
fn is_segment(channels: u32, order: Order, list: &[u32], count: usize) -> bool
    requires { count ≤ length list.now }
    ensures { result ≡ spec.is_segment channels order list.now count }
{
    recurs(list, count) && follow(channels, order, &list[..count])
}

// Whether each entry is the one `count` places before it, where there is one.
fn recurs(list: &[u32], count: usize) -> bool
    requires { count ≤ length list.now }
    ensures { result ≡ spec.recurs count list.now }
{
    list[count..] == list[..list.len() - count]
}

// Whether the channels are in the order.
fn follow(channels: u32, order: Order, list: &[u32]) -> bool
    ensures { result ≡ spec.follow channels order (map bits.chan list.now) }
{
    match order {
        Order::Consecutive => are_consecutive(channels, list),
        Order::Straight => are_straight(list),
        Order::First => are_first(list),
        Order::Rising => are_rising(list),
        Order::Distinct => are_distinct(list),
    }
}

fn are_consecutive(channels: u32, list: &[u32]) -> bool
    ensures { result ≡ spec.all_next (spec.is_turn channels) (map bits.chan list.now) }
{
    list.iter()
        .zip(list.iter().skip(1))
        .all(|(entry, next)| is_turn(channels, *entry, *next))
}

// Whether the channel of an entry is the one after that of another, where 0 comes after the last.
fn is_turn(channels: u32, entry: u32, next: u32) -> bool
    ensures { result ≡ spec.is_turn channels (bits.chan entry) (bits.chan next) }
{
    let after = chan(entry) + 1;
    chan(next) == if after == channels { 0 } else { after }
}

fn are_straight(list: &[u32]) -> bool
    ensures { result ≡ spec.all_next (λ a b. b == a + 1) (map bits.chan list.now) }
{
    list.iter()
        .zip(list.iter().skip(1))
        .all(|(entry, next)| chan(*next) == chan(*entry) + 1)
}

// Whether the channels are 0, 1 and so on.
fn are_first(list: &[u32]) -> bool
    ensures { result ≡ bytes_eq (map bits.chan list.now) (range_with_len 0 (length (map bits.chan list.now))) }
{
    list.iter()
        .enumerate()
        .all(|(place, entry)| chan(*entry) as usize == place)
}

fn are_rising(list: &[u32]) -> bool
    ensures { result ≡ spec.all_next nat_lt (map bits.chan list.now) }
{
    list.iter()
        .zip(list.iter().skip(1))
        .all(|(entry, next)| chan(*entry) < chan(*next))
}

fn are_distinct(list: &[u32]) -> bool
    ensures { result ≡ spec.all_distinct (map bits.chan list.now) }
{
    let mut rest = list;
    while let [first, more @ ..] = rest {
        if has_channel(more, chan(*first)) {
            return false;
        }
        rest = more;
    }
    true
}

fn has_channel(list: &[u32], wanted: u32) -> bool
    ensures { result ≡ list_any (λ b. b == wanted) (map bits.chan list.now) }
{
    list.iter().any(|entry| chan(*entry) == wanted)
}
