// The numbers that the counters of a clock can divide by.
ghost use Rattle.std.specs.Prelude.{◌≡◌, ◌≤◌, ◌<◌, ◌+◌, ◌-◌, ◌^◌, ◌∷◌, ◌⊎◌, [], length, true, IsTrue};
ghost use Rattle.std.specs.List.{list_all, range_with_len};
ghost use Rattle.cm_board.specs.Times as spec;

use crate::board::Divisors;

// The least number that times of 32 bits can't have.
const TOP: u64 = 1 << 32;

impl Divisors {
    ghost use Rattle.std.specs.Prelude.{◌≡◌, ◌≤◌, ◌^◌, IsTrue};
    ghost use Rattle.cm_board.specs.Times.{are_divisors, are_rising, greatest_to, is_multiple, is_one, least_to, numbers};

    // The greatest of these numbers that isn't above a bound, or 0.
    fn below(&self, bound: u32) -> u32
        requires { IsTrue (are_rising self.now) }
        ensures value { result ≡ greatest_to (is_one (numbers self.now)) bound }
        ensures within { result ≤ bound }
    {
        match self {
            Divisors::Span(first, last) => if bound < *first { 0 } else { bound.min(*last) },
            Divisors::Listed(list) => number_below(list.as_slice(), bound),
        }
    }

    // The least of these numbers that isn't below a bound, or 2^32.
    fn above(&self, bound: u32) -> u64
        requires { IsTrue (are_rising self.now) }
        ensures value { result ≡ least_to (is_one (numbers self.now)) bound }
        ensures within { result ≤ 2 ^ 32 }
    {
        match self {
            Divisors::Span(first, last) => if *last < bound {
                TOP
            } else {
                u64::from(bound.max(*first))
            },
            Divisors::Listed(list) => number_above(list.as_slice(), bound),
        }
    }

    // The greatest multiple of a number by one of these that isn't above a bound, or 0.
    fn multiple_below(&self, number: u32, bound: u32) -> u32
        requires some { 1 ≤ number }
        requires rising { IsTrue (are_rising self.now) }
        ensures value { result ≡ greatest_to (is_multiple number (is_one (numbers self.now))) bound }
        ensures within { result ≤ bound }
    {
        self.below(bound / number) * number
    }

    // The least multiple of a number by one of these that isn't below a bound, or 2^32.
    fn multiple_above(&self, number: u32, bound: u32) -> u64
        requires some { 1 ≤ number }
        requires rising { IsTrue (are_rising self.now) }
        ensures value { result ≡ least_to (is_multiple number (is_one (numbers self.now))) bound }
        ensures within { result ≤ 2 ^ 32 }
    {
        (self.above(bound.div_ceil(number)) * u64::from(number)).min(TOP)
    }
}

// The greatest number of a list that isn't above a bound, or 0.
fn number_below(list: &[u32], bound: u32) -> u32
    ensures value { result ≡ spec.greatest_to (spec.is_one list.now) bound }
    ensures within { result ≤ bound }
{
    match list {
        [] => 0,
        [first, more @ ..] => {
            let near = if *first <= bound { *first } else { 0 };
            near.max(number_below(more, bound))
        }
    }
}

// The least number of a list that isn't below a bound, or 2^32.
fn number_above(list: &[u32], bound: u32) -> u64
    ensures value { result ≡ spec.least_to (spec.is_one list.now) bound }
    ensures within { result ≤ 2 ^ 32 }
{
    match list {
        [] => TOP,
        [first, more @ ..] => {
            let near = if bound <= *first {
                u64::from(*first)
            } else {
                TOP
            };
            near.min(number_above(more, bound))
        }
    }
}

// The greatest product of a number of a list and one of these that isn't above a bound, or 0.
fn listed_below(list: &[u32], other: &Divisors, bound: u32) -> u32
    requires said { IsTrue (list_all spec.is_divisor list.now) }
    requires rising { IsTrue (spec.are_rising other.now) }
    ensures value { result ≡ spec.greatest_to (spec.are_multiples list.now (spec.is_one (spec.numbers other.now))) bound }
    ensures within { result ≤ bound }
{
    match list {
        [] => 0,
        [first, more @ ..] => {
            let near = other.multiple_below(*first, bound);
            near.max(listed_below(more, other, bound))
        }
    }
}

// The least product of a number of a list and one of these that isn't below a bound, or 2^32.
fn listed_above(list: &[u32], other: &Divisors, bound: u32) -> u64
    requires said { IsTrue (list_all spec.is_divisor list.now) }
    requires rising { IsTrue (spec.are_rising other.now) }
    ensures value { result ≡ spec.least_to (spec.are_multiples list.now (spec.is_one (spec.numbers other.now))) bound }
    ensures within { result ≤ 2 ^ 32 }
{
    match list {
        [] => TOP,
        [first, more @ ..] => {
            let near = other.multiple_above(*first, bound);
            near.min(listed_above(more, other, bound))
        }
    }
}

// The greatest product of a number from `first` on, below `end`, and one of these that isn't above a
// bound, or 0.
fn spanned_below(first: u32, end: u32, other: &Divisors, bound: u32) -> u32
    requires some { 1 ≤ first }
    requires rising { IsTrue (spec.are_rising other.now) }
    ensures value { result ≡ spec.greatest_to (spec.are_multiples (range_with_len first (end - first)) (spec.is_one (spec.numbers other.now))) bound }
    ensures within { result ≤ bound }
{
    let mut best = 0;
    for number in first..end {
        best = other.multiple_below(number, bound).max(best);
    }
    best
}

// The least product of such numbers that isn't below a bound, or 2^32.
fn spanned_above(first: u32, end: u32, other: &Divisors, bound: u32) -> u64
    requires some { 1 ≤ first }
    requires rising { IsTrue (spec.are_rising other.now) }
    ensures value { result ≡ spec.least_to (spec.are_multiples (range_with_len first (end - first)) (spec.is_one (spec.numbers other.now))) bound }
    ensures within { result ≤ 2 ^ 32 }
{
    let mut best = TOP;
    for number in first..end {
        best = other.multiple_above(number, bound).min(best);
    }
    best
}

// The greatest product of a divisor of each counter that isn't above a bound, or 0.
fn pair_below(one: &Divisors, other: &Divisors, bound: u32) -> u32
    requires one { IsTrue (spec.are_divisors one.now) }
    requires other { IsTrue (spec.are_divisors other.now) }
    requires one_rises { IsTrue (spec.are_rising one.now) }
    requires other_rises { IsTrue (spec.are_rising other.now) }
    ensures value { result ≡ spec.greatest_to (spec.are_multiples (spec.numbers one.now) (spec.is_one (spec.numbers other.now))) bound }
    ensures within { result ≤ bound }
{
    match (one, other) {
        (Divisors::Listed(list), _) => listed_below(list.as_slice(), other, bound),
        (_, Divisors::Listed(list)) => listed_below(list.as_slice(), one, bound),
        (Divisors::Span(first, last), Divisors::Span(second, most)) => {
            // one of two numbers isn't above the root of their product
            let root = bound.isqrt();
            let near = spanned_below(*first, root.min(*last) + 1, other, bound);
            near.max(spanned_below(*second, root.min(*most) + 1, one, bound))
        }
    }
}

// The least product of a divisor of each counter that isn't below a bound, or 2^32.
fn pair_above(one: &Divisors, other: &Divisors, bound: u32) -> u64
    requires one { IsTrue (spec.are_divisors one.now) }
    requires other { IsTrue (spec.are_divisors other.now) }
    requires one_rises { IsTrue (spec.are_rising one.now) }
    requires other_rises { IsTrue (spec.are_rising other.now) }
    ensures value { result ≡ spec.least_to (spec.are_multiples (spec.numbers one.now) (spec.is_one (spec.numbers other.now))) bound }
    ensures within { result ≤ 2 ^ 32 }
{
    match (one, other) {
        (Divisors::Listed(list), _) => listed_above(list.as_slice(), other, bound),
        (_, Divisors::Listed(list)) => listed_above(list.as_slice(), one, bound),
        (Divisors::Span(first, last), Divisors::Span(second, most)) => {
            let some = some_product(*first, *last, *most, other, bound);
            // and the least product isn't above this one
            let root = some.isqrt() as u32;
            let near = spanned_above(*first, root.min(*last) + 1, other, bound);
            near.min(spanned_above(*second, root.min(*most) + 1, one, bound))
                .min(some)
        }
    }
}

// A product of a number from one to another and one of these, of which `most` is the greatest: the
// least of the first such number with which it isn't below a bound; or 2^32.
fn some_product(first: u32, last: u32, most: u32, other: &Divisors, bound: u32) -> u64
    requires order { first ≤ last }
    requires some { (1 ≤ first) × (1 ≤ most) }
    requires rising { IsTrue (spec.are_rising other.now) }
    ensures not_below { bound ≤ result }
    ensures within { result ≤ 2 ^ 32 }
    ensures product { (result ≡ 2 ^ 32) ⊎ (spec.are_multiples (range_with_len first (last + 1 - first)) (spec.is_one (spec.numbers other.now)) result ≡ true) }
{
    let number = bound.div_ceil(most).max(first).min(last);
    other.multiple_above(number, bound)
}

/// The greatest product of a divisor of each counter that isn't above a bound, or 0; with no counter
/// the bound.
pub(crate) fn product_below(clock: &[Divisors], bound: u32) -> u32
    requires few { length clock.now ≤ 2 }
    requires said { IsTrue (list_all spec.are_divisors clock.now) }
    requires rising { IsTrue (list_all spec.are_rising clock.now) }
    ensures value { result ≡ spec.greatest_to (spec.is_product clock.now) bound }
    ensures within { result ≤ bound }
{
    match clock {
        [] => bound,
        [one] => one.below(bound),
        [one, other, ..] => pair_below(one, other, bound),
    }
}

/// The least product of a divisor of each counter that isn't below a bound, or 2^32; with no counter
/// the bound.
pub(crate) fn product_above(clock: &[Divisors], bound: u32) -> u64
    requires few { length clock.now ≤ 2 }
    requires said { IsTrue (list_all spec.are_divisors clock.now) }
    requires rising { IsTrue (list_all spec.are_rising clock.now) }
    ensures value { result ≡ spec.least_to (spec.is_product clock.now) bound }
    ensures within { result ≤ 2 ^ 32 }
{
    match clock {
        [] => u64::from(bound),
        [one] => one.above(bound),
        [one, other, ..] => pair_above(one, other, bound),
    }
}
