// A reader that compares each sample with what it must be.
ghost use Rattle.std.specs.Prelude.{◌≡◌, ◌+◌, ◌-◌, ◌%◌, ◌^◌, ◌≤◌, min, IsTrue, ◌↔◌};
ghost use Rattle.cm_load.specs.Coming.{HasCome, IsFresh, all_of, both};
ghost use Rattle.cm_load.specs.Words.{differing, place_code};
ghost use Rattle.cm_ring_core.specs.Lawful.{munged_at};

use crate::words::code_at;
use cm_ring::reader::Reader;
use cm_ring_core::view::EndKind;
use cm_sample::planned::Planned;
use crossbeam_utils::Backoff;
use std::sync::Wait;

// How many samples are mapped at once.
const PIECE: u32 = 256;

// After fewer samples the reader steps back.
const SMALL: u32 = 16;

/// What came out of a ring.
#[derive(Clone, Copy, Drop)]
pub struct Came {
    /// How many samples came.
    pub count: u32,
    /// How many of them weren't what they must be.
    pub wrong: u32,
    /// Whether the end was `Done`, at their number.
    pub done: bool,
}

impl Came {
    /// What came out of this ring and another one.
    pub fn and(self, other: Came) -> Came
        ensures { result ≡ both self other }
    {
        Came {
            count: self.count.wrapping_add(other.count),
            wrong: self.wrong.saturating_add(other.wrong),
            done: self.done && other.done,
        }
    }

    /// Whether all of so many samples came, each as it must be.
    pub fn is_whole(self, samples: u32) -> bool
        ensures { IsTrue result ↔ (self ≡ all_of samples) }
    {
        self.count == samples && self.wrong == 0 && self.done
    }
}

// How many of the mapped samples aren't those of the places from `place` on.
fn wrong_of<P: Planned>(reader: &mut Reader<P>, count: u32, place: u32, maxdata: u32) -> u32
    requires { count ≡ reader.old.mapped }
    ensures same { reader.new ≡ reader.old }
    ensures wrong { result ≡ differing (λ i. munged_at reader.old.ring (reader.old.part.released + i)) (λ i. place_code maxdata ((place + i) % 2 ^ 32)) count }
{
    let mut wrong = 0u32;
    for i in 0..count {
        if reader.word(i) != code_at(place.wrapping_add(i), maxdata) {
            wrong += 1;
        }
    }
    wrong
}

// Compares and releases a piece more, and reports how many samples it has.
fn read_piece<P: Planned>(reader: &mut Reader<P>, came: &mut Came, first: u32, maxdata: u32) -> u32
    requires { reader.old.mapped ≡ 0 }
    ensures same { reader.new ≡ record reader.old { part = record reader.old.part { released = reader.old.part.released + result; known = reader.new.part.known; munged_looks = reader.old.part.munged_looks + 1 } } }
    ensures few { result ≡ min 256 (reader.new.part.known - reader.old.part.released) }
    ensures count { came.new.count ≡ (came.old.count + result) % 2 ^ 32 }
    ensures wrong { came.new.wrong ≡ min (came.old.wrong + differing (λ i. munged_at reader.old.ring (reader.old.part.released + i)) (λ i. place_code maxdata (((first + came.old.count) % 2 ^ 32 + i) % 2 ^ 32)) result) (2 ^ 32 - 1) }
    ensures done { came.new.done ≡ came.old.done }
{
    let count = reader.map(PIECE);
    let wrong = wrong_of(reader, count, first.wrapping_add(came.count), maxdata);
    reader.release(count);
    came.count = came.count.wrapping_add(count);
    came.wrong = came.wrong.saturating_add(wrong);
    count
}

// Lets the munger get ahead after a small piece.
fn step_back(backoff: &Backoff, count: u32) {
    if count < SMALL {
        backoff.snooze();
    }
}

/// Reads to the end, and compares each sample with that of its place: the first one is that of the
/// place `first`.
pub fn compare_all<R: Wait + Sync, P: Planned>(
    rt: &R,
    mut reader: Reader<P>,
    first: u32,
    maxdata: u32,
) -> Came
    requires { IsFresh reader }
    ensures { HasCome reader.ring first maxdata result }
{
    let backoff = Backoff::new();
    let mut came = Came {
        count: 0,
        wrong: 0,
        done: false,
    };
    for _ in rt.forever() {
        if let Some(end) = reader.ended() {
            if end.count == came.count as u64 {
                came.done = end.kind == EndKind::Done;
                break;
            }
        }
        let count = read_piece(&mut reader, &mut came, first, maxdata);
        step_back(&backoff, count);
    }
    came
}
