// All scans of a stream.
ghost use Rattle.std.specs.Prelude.{◌≡◌, true, Some, IfOk, OnErr};
ghost use Rattle.cm_ring_core.specs.declared.view.EndKind.TheVariants.{Cancelled};
ghost use Rattle.cm_ring_core.specs.Lawful.{IsFoundEnd};
ghost use Rattle.cm_ring.specs.Samples.{first_munged};
ghost use Rattle.cm_stream.specs.Scans.{scans};
ghost use Rattle.cm_stream.specs.Stream.{IsSameStream};

use crate::scan::Scan;
use crate::step::StreamStep;
use crate::stream::ScanStream;
use cm_base::transfer::NoMemory;
use cm_ring_core::view::End;
use cm_sample::planned::Planned;
use crossbeam_utils::Backoff;
use std::alloc::Global;
use std::sync::Wait;

/// Steps a stream until it has ended, and gives its scans and its end: the scans of the munged plan
/// up to the end's count. Where memory runs out, it asks for the stop, so that a writer that waits
/// for room ends.
pub fn collect_scans<P: Planned, R: Wait + Sync>(
    rt: &R,
    alloc: Global,
    stream: &mut ScanStream<P>,
) -> Result<(Vec<Scan>, End), NoMemory>
    requires fresh { stream.old.reader.part.released ≡ 0 }
    ensures scans { IfOk result (λ t. t.0.items ≡ scans (first_munged stream.old.reader.ring t.1.count) stream.old.n) }
    ensures end { IfOk result (λ t. (stream.new.reader.part.found ≡ Some t.1) × (stream.new.reader.part.released ≡ t.1.count)) }
    ensures says { IfOk result (λ t. IsFoundEnd stream.new.reader.ring stream.new.reader.part t.1.kind t.1.count) }
    ensures cancelled { IfOk result (λ t. t.1.kind ≡ Cancelled → stream.old.reader.part.asked ≡ true) }
    ensures same { IfOk result (λ t. IsSameStream stream.old stream.new) }
    ensures no_memory { OnErr result (stream.new.reader.part.asked ≡ true) }
{
    let backoff = Backoff::new();
    let mut scans = Vec::new(alloc);
    for _ in rt.forever() {
        match stream.step() {
            StreamStep::Given(scan) => {
                if scans.push(scan).is_err() {
                    break;
                }
                backoff.reset();
            }
            StreamStep::Ended => {
                let end = stream.end().unwrap();
                return Ok((scans, end));
            }
            StreamStep::Waiting => backoff.snooze(),
            StreamStep::NoMemory => break,
        }
    }
    stream.ask_stop();
    Err(NoMemory)
}
