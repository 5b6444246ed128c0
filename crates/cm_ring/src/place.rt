// How a place and an end are shown in a word.
ghost use Rattle.std.specs.Prelude.{◌≡◌, ℕ, ◌+◌, ◌<◌, ◌≤◌, Option, Some};
ghost use Rattle.cm_ring_core.specs.declared.view.RingConstants.{RingConstants};
ghost use Rattle.cm_ring_core.specs.declared.view.End.{End};
ghost use Rattle.cm_ring_core.specs.Lawful.{shown, end_word, kind_code};

use cm_ring_core::view::{End, EndKind};

/// The word that shows a place: a 32-bit count that starts at the base and wraps.
pub(crate) fn word_of(base: u32, place: u64) -> u64
    requires { place < 18014398509481984 }
    ensures { (ring : RingConstants) → ring.base ≡ base → result ≡ shown ring place }
{
    (base as u64 + place) % 4294967296
}

/// The place that a word shows, which is that of an earlier look or at most 1,048,576 after it.
pub(crate) fn place_from(base: u32, old: u64, word: u64) -> u64
    requires { old < 18014398509481984 }
    ensures { (ring : RingConstants) (k : ℕ) → ring.base ≡ base → word ≡ shown ring k → old ≤ k → k ≤ old + 1048576 → result ≡ k }
{
    let there = (base as u64 + old) % 4294967296;
    old + (word % 4294967296 + (4294967296 - there)) % 4294967296
}

// The number of a kind.
fn code_of(kind: EndKind) -> u64
    ensures { result ≡ kind_code kind }
{
    match kind {
        EndKind::Done => 1,
        EndKind::Overrun => 2,
        EndKind::Cancelled => 3,
    }
}

/// The word that shows an end.
pub(crate) fn word_of_end(end: &End) -> u64
    requires { end.now.count ≤ 1099511627776 }
    ensures { result ≡ end_word (Some end.now) }
{
    4 * end.count + code_of(end.kind)
}

/// The end that a word shows, or none.
pub(crate) fn end_from(word: u64) -> Option<End>
    ensures { (found : Option End) → word ≡ end_word found → result ≡ found }
{
    let count = word / 4;
    let kind = match word % 4 {
        0 => return None,
        1 => EndKind::Done,
        2 => EndKind::Overrun,
        _ => EndKind::Cancelled,
    };
    Some(End { kind, count })
}
