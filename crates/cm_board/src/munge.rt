// Munges: how a word of the buffer stands for a code. All that the core knows of a munge stands here.
ghost use Rattle.std.specs.Prelude.{◌≡◌};
ghost use Rattle.cm_board.specs.Munge.{munged, unmunged, MayShift};

use crate::lines::{CHAN_MUNGE, MUNGE};
use crate::table::{Form, Limits, Rule, Word};

/// How a word of the buffer stands for a code (Comedi: a driver's `munge`).
#[derive(Clone, Copy)]
pub enum Munge {
    /// The word is the code.
    Plain,
    /// The highest bit of the code is inverted, as in two's complement.
    Offset,
    /// The two low bytes are exchanged.
    Swap16,
    /// The code stands this many bits to the left, 1 to 8.
    Left(u8),
}

// A form of the row about all channels, by its words after `munge`.
macro_rules! of_all {
    ($($word:expr),+) => {
        Form {
            row: MUNGE,
            words: &[Word::Fixed(b"munge"), $($word),+],
            rule: Rule::Free,
        }
    };
}

// The same of the row about one channel.
macro_rules! of_one {
    ($($word:expr),+) => {
        Form {
            row: CHAN_MUNGE,
            words: &[
                Word::Fixed(b"chan"),
                Word::Channel,
                Word::Fixed(b"munge"),
                $($word),+
            ],
            rule: Rule::Free,
        }
    };
}

// The bits of a shift.
const SHIFT: Word = Word::Number(Limits {
    least: 1,
    most: 8,
    wide: 8,
});

/// How many forms each of both rows has. They stand in the order in which `Munge::by_form` counts them.
pub(crate) const COUNT: usize = 4;

pub(crate) const PLAIN: Form = of_all!(Word::Fixed(b"none"));

pub(crate) const OFFSET: Form = of_all!(Word::Fixed(b"offset"));

pub(crate) const SWAPPED: Form = of_all!(Word::Fixed(b"swap16"));

pub(crate) const LEFT: Form = of_all!(Word::Fixed(b"left"), SHIFT);

pub(crate) const CHAN_PLAIN: Form = of_one!(Word::Fixed(b"none"));

pub(crate) const CHAN_OFFSET: Form = of_one!(Word::Fixed(b"offset"));

pub(crate) const CHAN_SWAPPED: Form = of_one!(Word::Fixed(b"swap16"));

pub(crate) const CHAN_LEFT: Form = of_one!(Word::Fixed(b"left"), SHIFT);

impl Munge {
    ghost use Rattle.cm_board.specs.Munge.{fits_bits, munge_by_form};

    /// The munge that a line says, by the number of its form among those of its row, and by the bits
    /// of a shift where the form has them.
    pub fn by_form(form: usize, bits: u32) -> Munge
        ensures { result ≡ munge_by_form form bits }
    {
        match form {
            0 => Munge::Plain,
            1 => Munge::Offset,
            2 => Munge::Swap16,
            _ => Munge::Left(bits.clamp(1, 8) as u8),
        }
    }

    /// Whether it goes with a greatest code: words that are swapped have at most 16 bits.
    pub fn fits_bits(self, maxdata: u32) -> bool
        ensures { result ≡ fits_bits self maxdata }
    {
        match self {
            Munge::Swap16 => maxdata <= 65_535,
            _ => true,
        }
    }
}

/// The code that a word of the buffer stands for (Comedi: a driver's `munge`).
pub fn munged(kind: Munge, maxdata: u32, word: u32) -> u32
    requires { MayShift kind }
    ensures { result ≡ munged kind maxdata word }
{
    match kind {
        Munge::Plain => word,
        Munge::Offset => word ^ maxdata ^ (maxdata >> 1),
        Munge::Swap16 => (word % 256) * 256 + word / 256 % 256,
        Munge::Left(bits) => word >> bits,
    }
}

/// The word of the buffer that stands for a code.
pub fn unmunged(kind: Munge, maxdata: u32, code: u32) -> u32
    requires { MayShift kind }
    ensures { result ≡ unmunged kind maxdata code }
{
    match kind {
        Munge::Plain => code,
        Munge::Offset => code ^ maxdata ^ (maxdata >> 1),
        Munge::Swap16 => (code % 256) * 256 + code / 256 % 256,
        Munge::Left(bits) => code.wrapping_mul(1 << bits),
    }
}

/// The same for each munge: the expression stands once for each, so that in each of them the compiler
/// knows the kind, and a loop doesn't ask it again.
#[macro_export]
macro_rules! by_known_munge {
    ($kind:expr, $known:ident => $result:expr) => {
        match $kind {
            $crate::munge::Munge::Plain => {
                let $known = $crate::munge::Munge::Plain;
                $result
            }
            $crate::munge::Munge::Offset => {
                let $known = $crate::munge::Munge::Offset;
                $result
            }
            $crate::munge::Munge::Swap16 => {
                let $known = $crate::munge::Munge::Swap16;
                $result
            }
            $crate::munge::Munge::Left(bits) => {
                let $known = $crate::munge::Munge::Left(bits);
                $result
            }
        }
    };
}
