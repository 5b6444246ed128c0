// Words on their way into a ring.
ghost use Rattle.std.specs.Prelude.{◌≡◌, ◌+◌, ◌-◌, ◌<◌, ◌≤◌, ◌^◌, ◌++◌, length, take};
ghost use Rattle.cm_ring_core.specs.Local.{IsRing, room_of};
ghost use Rattle.cm_running.specs.Storing.{stored};

use cm_ring_core::local::LocalRing;

/// Stores the first of some words after all that is allocated, as far as there is room, and reports
/// how many. None of them is marked.
pub fn store(ring: &mut LocalRing, words: &[u32]) -> u32
    requires places { ring.old.a < 2 ^ 62 }
    requires few { length words.now ≤ 1024 }
    requires order { ring.old.w ≤ ring.old.a }
    ensures count { result ≡ length (take (room_of ring.old) words.now) }
    ensures after { ring.new ≡ stored ring.old (take (room_of ring.old) words.now) ring.new.cells }
{
    ring.room();
    let places = ring.places();
    let granted = ring.write_alloc(words.len() as u32);
    ring.room();
    put_all(
        ring,
        (places.a - places.w) as u32,
        &words[..granted as usize],
    );
    granted
}

// Stores words into the last allocated cells, which are those from the `first` one after the written
// ones on.
fn put_all(ring: &mut LocalRing, first: u32, words: &[u32])
    requires sound { IsRing ring.old }
    requires few { length words.now ≤ 1024 }
    requires cells { first + length words.now ≡ ring.old.a - ring.old.w }
    ensures { ring.new ≡ record ring.old { cells = ring.new.cells; held = take (ring.old.w - ring.old.r + first) ring.old.held ++ words.now } }
{
    for i in 0..words.len() {
        ring.put(first + i as u32, words[i]);
    }
}
