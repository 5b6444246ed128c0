// Which channel lists a subdevice takes.
ghost use Rattle.std.specs.Prelude.{◌≡◌, ◌==◌, IsTrue};
ghost use Rattle.std.specs.List.{list_all, list_any};
ghost use Rattle.cm_cmd.specs.Entry as bits;
ghost use Rattle.cm_test.specs.ValidList as spec;

use crate::orders::keep_order;
use cm_board::board::Sub;
use cm_cmd::entry::{aref, chan, range};

/// Whether the list has a length and entries that the subdevice takes, and these keep together what
/// it asks for: one range, an order, one reference and one polarity.
pub fn is_valid_list(sub: &Sub, list: &[u32]) -> bool
    ensures { result ≡ spec.is_valid_list sub.now list.now }
{
    has_valid_length(sub, list) && has_valid_entries(sub, list) && keeps_rules(sub, list)
}

fn has_valid_length(sub: &Sub, list: &[u32]) -> bool
    ensures { result ≡ spec.has_valid_length sub.now list.now }
{
    1 <= list.len() && list.len() <= sub.list_max as usize
}

// Whether an entry has 26 bits, a channel of the subdevice and a range of the channel.
fn is_valid_entry(sub: &Sub, entry: u32) -> bool
    ensures { result ≡ spec.is_valid_entry sub.now entry }
{
    entry < 67108864 && chan(entry) < sub.channels && range(entry) < sub.range_count(chan(entry))
}

fn has_valid_entries(sub: &Sub, list: &[u32]) -> bool
    ensures { result ≡ list_all (spec.is_valid_entry sub.now) list.now }
{
    list.iter().all(|entry| is_valid_entry(sub, *entry))
}

// Whether valid entries keep together what the subdevice asks for.
fn keeps_rules(sub: &Sub, list: &[u32]) -> bool
    requires { IsTrue (list_all (spec.is_valid_entry sub.now) list.now) }
    ensures { result ≡ spec.keeps_rules sub.now list.now }
{
    let rules = sub.lists;
    (!rules.same_range || have_one_range(list))
        && keep_order(sub.channels, rules.order, list)
        && (!rules.same_reference || have_one_reference(list))
        && (!rules.same_polarity || have_one_polarity(sub, list))
}

fn have_one_range(list: &[u32]) -> bool
    ensures { result ≡ spec.have_one_range list.now }
{
    match list {
        [] => true,
        [first, rest @ ..] => have_range(rest, range(*first)),
    }
}

fn have_range(list: &[u32], wanted: u32) -> bool
    ensures { result ≡ list_all (spec.has_range wanted) list.now }
{
    list.iter().all(|entry| range(*entry) == wanted)
}

fn have_one_reference(list: &[u32]) -> bool
    ensures { result ≡ spec.have_one_reference list.now }
{
    match list {
        [] => true,
        [first, rest @ ..] => have_reference(rest, aref(*first)),
    }
}

fn have_reference(list: &[u32], wanted: u32) -> bool
    ensures { result ≡ list_all (spec.has_reference wanted) list.now }
{
    list.iter().all(|entry| aref(*entry) == wanted)
}

// Whether the ranges of all valid entries begin below 0, or none does.
fn have_one_polarity(sub: &Sub, list: &[u32]) -> bool
    requires { IsTrue (list_all (spec.is_valid_entry sub.now) list.now) }
    ensures { result ≡ spec.have_one_polarity sub.now list.now }
{
    are_bipolar(sub, list) || !has_bipolar(sub, list)
}

fn are_bipolar(sub: &Sub, list: &[u32]) -> bool
    requires { IsTrue (list_all (spec.is_valid_entry sub.now) list.now) }
    ensures { result ≡ list_all (spec.is_bipolar sub.now) list.now }
{
    list.iter().all(|entry| is_bipolar(sub, *entry))
}

fn has_bipolar(sub: &Sub, list: &[u32]) -> bool
    requires { IsTrue (list_all (spec.is_valid_entry sub.now) list.now) }
    ensures { result ≡ list_any (spec.is_bipolar sub.now) list.now }
{
    list.iter().any(|entry| is_bipolar(sub, *entry))
}

// Whether the range of a valid entry begins below 0.
fn is_bipolar(sub: &Sub, entry: u32) -> bool
    requires { IsTrue (spec.is_valid_entry sub.now entry) }
    ensures { result ≡ spec.is_bipolar sub.now entry }
{
    sub.range_of(chan(entry), range(entry)).min < 0
}
