// Reads in place.
ghost use Rattle.std.specs.Prelude.{◌≡◌, ◌+◌, ◌-◌, ◌<◌, ◌≤◌, ◌++◌, min, length, drop, Some};
ghost use Rattle.cm_ring_core.specs.declared.view.End.{End};
ghost use Rattle.cm_ring_core.specs.Lawful.{munged_at};
ghost use Rattle.cm_ring.specs.Samples.{piece};

use cm_ring::reader::Reader;
use cm_sample::planned::Planned;

/// A reader whose samples are read in their cells, as in a buffer that is mapped into a process.
/// Contracts see of it its reader, which is the lender's again when the `MapReader` is gone.
#[derive(Drop)]
pub struct MapReader<'a, P: Planned> {
    reader: &'a mut Reader<P>,
}

impl<'a, P: Planned> MapReader<'a, P> {
    pub fn new(reader: &'a mut Reader<P>) -> MapReader<'a, P>
        ensures same_reader { result.reader.ghost_name ≡ reader.entry.ghost_name }
        ensures reader { result.reader.now ≡ reader.old }
    {
        MapReader { reader }
    }

    /// Maps up to `n` samples more, as many as a look in this call at the munged count allows, and
    /// reports all that are then mapped (Comedi: `comedi_get_buffer_contents`).
    pub fn contents(&mut self, n: u32) -> u32
        ensures same_reader { self.new.reader.ghost_name ≡ self.old.reader.ghost_name }
        ensures mapped { result ≡ self.old.reader.now.mapped + min n (self.new.reader.now.part.known - self.old.reader.now.part.released - self.old.reader.now.mapped) }
        ensures same { self.new.reader.now ≡ record self.old.reader.now { part = record self.old.reader.now.part { known = self.new.reader.now.part.known; munged_looks = self.old.reader.now.part.munged_looks + 1 }; mapped = result } }
        ensures later { self.old.reader.now.part.known ≤ self.new.reader.now.part.known }
        ensures ended { (e : End) → self.old.reader.now.part.found ≡ Some e → self.new.reader.now.part.known ≤ e.count }
        ensures within { (self.old.reader.now.part.released + result ≤ self.new.reader.now.part.known) × (self.new.reader.now.part.known ≤ length self.old.reader.now.ring.samples) }
    {
        self.reader.map(n);
        self.reader.mapped()
    }

    /// The mapped sample that is `i` places after the released ones, the same at each look.
    pub fn word(&mut self, i: u32) -> u32
        requires { i < self.old.reader.now.mapped }
        ensures same_reader { self.new.reader.ghost_name ≡ self.old.reader.ghost_name }
        ensures word { result ≡ munged_at self.old.reader.now.ring (self.old.reader.now.part.released + i) }
        ensures same { self.new.reader.now ≡ self.old.reader.now }
    {
        self.reader.word(i)
    }

    // Copies the first `count` mapped samples to the front of `out`.
    pub(crate) fn copy_words(&mut self, out: &mut [u32], count: u32)
        requires mapped { count ≤ self.old.reader.now.mapped }
        requires room { count ≤ length out.old }
        ensures same_reader { self.new.reader.ghost_name ≡ self.old.reader.ghost_name }
        ensures reader { self.new.reader.now ≡ self.old.reader.now }
        ensures copied { out.new ≡ piece self.old.reader.now.ring self.old.reader.now.part.released count ++ drop count out.old }
    {
        self.reader.copy_words(out, count);
    }

    /// Releases the first `k` mapped samples, whose cells the writer may then use again (Comedi:
    /// `comedi_mark_buffer_read`).
    pub fn release(&mut self, k: u32)
        requires { k ≤ self.old.reader.now.mapped }
        ensures same_reader { self.new.reader.ghost_name ≡ self.old.reader.ghost_name }
        ensures same { self.new.reader.now ≡ record self.old.reader.now { part = record self.old.reader.now.part { released = self.old.reader.now.part.released + k }; mapped = self.old.reader.now.mapped - k } }
    {
        self.reader.release(k);
    }
}
