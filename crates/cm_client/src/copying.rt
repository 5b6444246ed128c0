// Reads by copying.
ghost use Rattle.std.specs.Prelude.{◌≡◌, ◌+◌, ◌-◌, ◌<◌, ◌≤◌, ◌++◌, min, length, drop, Some};
ghost use Rattle.cm_ring_core.specs.declared.view.End.{End};
ghost use Rattle.cm_ring.specs.Samples.{piece};

use cm_ring::reader::Reader;
use cm_sample::planned::Planned;

/// Copies munged samples to the front of `out` and releases them, and reports how many: as many as
/// a look in this call at the munged count allows. Where `out` is empty it looks at nothing (Comedi:
/// `comedi_read`).
pub fn copy_read<P: Planned>(reader: &mut Reader<P>, out: &mut [u32]) -> usize
    requires { reader.old.mapped ≡ 0 }
    ensures few { result ≡ min (length out.old) (reader.new.part.known - reader.old.part.released) }
    ensures copied { out.new ≡ piece reader.old.ring reader.old.part.released result ++ drop result out.old }
    ensures same { reader.new ≡ record reader.old { part = record reader.old.part { released = reader.old.part.released + result; known = reader.new.part.known; munged_looks = reader.new.part.munged_looks } } }
    ensures none { length out.old ≡ 0 → reader.new ≡ reader.old }
    ensures looked { 0 < length out.old → reader.new.part.munged_looks ≡ reader.old.part.munged_looks + 1 }
    ensures later { reader.old.part.known ≤ reader.new.part.known }
    ensures ended { 0 < length out.old → (e : End) → reader.old.part.found ≡ Some e → reader.new.part.known ≤ e.count }
    ensures within { 0 < length out.old → reader.old.part.released + result ≤ length reader.old.ring.samples }
{
    if out.is_empty() {
        return 0;
    }
    let most = out.len().min(1_048_576) as u32;
    let count = reader.map(most);
    if count > 0 {
        reader.copy_words(out, count);
        reader.release(count);
    }
    count as usize
}
