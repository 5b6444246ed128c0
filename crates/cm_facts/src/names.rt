// The words that stand for what a board can be.
ghost use Rattle.std.specs.Prelude.{◌≡◌};
ghost use Rattle.cm_board_text.specs.Printed.{kind_text};
ghost use Rattle.cm_facts.specs.Names as spec;

use cm_board::board::{Kind, ListOrder, Order, Way};
use cm_signal::wave::Wave;

/// Returns the word that says whether something holds.
pub(crate) fn yes_or_no(holds: bool) -> &'static [u8]
    ensures { result.now ≡ spec.yes_or_no holds }
{
    if holds { b"yes" } else { b"no" }
}

/// Returns the name of a subdevice's kind.
pub(crate) fn kind_name(kind: Kind) -> &'static [u8]
    ensures { result.now ≡ kind_text kind }
{
    match kind {
        Kind::Unused => b"unused",
        Kind::Ai => b"ai",
        Kind::Ao => b"ao",
        Kind::Di => b"di",
        Kind::Do => b"do",
        Kind::Dio => b"dio",
    }
}

/// Returns the name of a trigger by its number: start 0, scan_begin 1, convert 2, scan_end 3, stop 4.
pub(crate) fn trigger_name(trigger: u8) -> &'static [u8]
    ensures { result.now ≡ spec.trigger_name trigger }
{
    match trigger {
        0 => b"start",
        1 => b"scan_begin",
        2 => b"convert",
        3 => b"scan_end",
        _ => b"stop",
    }
}

/// Returns the name of the way in which times are rounded: `flags` if a command's flags say it.
pub(crate) fn rounding_name(own: Option<Way>) -> &'static [u8]
    ensures { result.now ≡ spec.rounding_name own }
{
    match own {
        None => b"flags",
        Some(Way::Nearest) => b"nearest",
        Some(Way::Down) => b"down",
        Some(Way::Up) => b"up",
    }
}

fn order_name(order: Order) -> &'static [u8]
    ensures { result.now ≡ spec.order_name order }
{
    match order {
        Order::Consecutive => b"consecutive",
        Order::Straight => b"straight",
        Order::First => b"first",
        Order::Rising => b"rising",
        Order::Distinct => b"distinct",
    }
}

/// Returns the name of the order that is asked of a channel list: `any` if none is.
pub(crate) fn list_order_name(order: Option<ListOrder>) -> &'static [u8]
    ensures { result.now ≡ spec.list_order_name order }
{
    match order {
        None => b"any",
        Some(order) => order_name(order.order),
    }
}

/// Returns whether a channel list may repeat entries in this order.
pub(crate) fn may_repeat(order: Option<ListOrder>) -> bool
    ensures { result ≡ spec.may_repeat order }
{
    match order {
        None => false,
        Some(order) => order.repeats,
    }
}

/// Returns the name of a wave's kind.
pub(crate) fn wave_name(wave: &Wave) -> &'static [u8]
    ensures { result.now ≡ spec.wave_name wave.now }
{
    match wave {
        Wave::Const(_) => b"const",
        Wave::Square(_, _, _) => b"square",
        Wave::Saw(_, _, _) => b"saw",
        Wave::Table(_, _) => b"table",
        Wave::Record(_, _) => b"record",
    }
}
