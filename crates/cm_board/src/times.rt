// The times that the timers of a board can make.
ghost use Rattle.std.specs.Prelude.{◌≡◌, IfOk};
ghost use Rattle.cm_board.specs.Times as spec;

use crate::board::{Divisors, Timers};
use crate::clock::{product_above, product_below};
use cm_base::lists::Nums;
use std::alloc::{AllocError, Global};

impl Divisors {
    ghost use Rattle.std.specs.Prelude.{◌≡◌, IfOk};
    ghost use Rattle.cm_board.specs.Times.{are_rising};

    /// Another of the same.
    pub fn copy(&self, alloc: Global) -> Result<Divisors, AllocError>
        ensures { IfOk result (λ divisors. divisors ≡ self.now) }
    {
        match self {
            Divisors::Span(first, last) => Ok(Divisors::Span(*first, *last)),
            Divisors::Listed(list) => {
                let mut copy = Vec::new(alloc);
                copy.extend_from_slice(list.as_slice())?;
                Ok(Divisors::Listed(Nums::new(copy)))
            }
        }
    }

    /// Whether they rise.
    pub fn rise(&self) -> bool
        ensures { result ≡ are_rising self.now }
    {
        match self {
            Divisors::Span(first, last) => first <= last,
            Divisors::Listed(list) => rise(list.as_slice()),
        }
    }
}

impl Timers {
    ghost use Rattle.std.specs.Prelude.{◌≡◌};
    ghost use Rattle.cm_board.specs.Times.{AreTimers, down, up};

    /// The greatest time that they can make not above another, or 0 where there is none.
    pub fn down(&self, time: u32) -> u32
        requires { AreTimers self.now }
        ensures { result ≡ down self.now time }
    {
        product_below(&self.clock, time / self.tick) * self.tick
    }

    /// The least time that they can make not below another, or 2^32 where there is none of 32 bits.
    pub fn up(&self, time: u32) -> u64
        requires { AreTimers self.now }
        ensures { result ≡ up self.now time }
    {
        let product = product_above(&self.clock, time.div_ceil(self.tick));
        (product * u64::from(self.tick)).min(1 << 32)
    }
}

// Whether each number is above the one before.
fn rise(list: &[u32]) -> bool
    ensures { result ≡ spec.rise list.now }
{
    match list {
        [] => true,
        [first, more @ ..] => match more {
            [] => true,
            [second, ..] => first < second && rise(more),
        },
    }
}
