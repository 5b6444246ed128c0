// A merge as a stream of `futures`.
ghost use Rattle.std.specs.Prelude.{◌≡◌, length};
ghost use Rattle.futures.specs.Task.{Covers, Keeps};
ghost use Rattle.futures.specs.Poll.{OnPending};
ghost use Rattle.cm_stream.specs.Merging.{first_after, last_after, merge_step_of, HasMerged};

use crate::merge::{Merge, MergeStep};
use crate::scan::Scan;
use cm_base::transfer::NoMemory;
use cm_sample::planned::Planned;
use futures::Stream;
use futures::task::{Context, Poll};

impl<P: Planned> Stream for Merge<P> {
    type Item = (u32, Result<Scan, NoMemory>);

    /// One step. Where it waits, the poll asks to be polled again.
    fn poll_next(&mut self, cx: &mut Context<'_>) -> Poll<Option<(u32, Result<Scan, NoMemory>)>>
        ensures merged { HasMerged (merge_step_of result) (first_after (length self.old.streams) self.old.last) self.old.streams self.new.streams }
        ensures last { self.new.last ≡ last_after (merge_step_of result) self.old.last }
        ensures registered { OnPending result (Covers cx.new (λ _. ⊥)) }
        ensures kept { Keeps cx.old cx.new }
    {
        match self.step() {
            MergeStep::Given(source, scan) => Poll::Ready(Some((source, Ok(scan)))),
            MergeStep::Ended => Poll::Ready(None),
            MergeStep::NoMemory(source) => Poll::Ready(Some((source, Err(NoMemory)))),
            MergeStep::Waiting => cx.yield_now(),
        }
    }
}
