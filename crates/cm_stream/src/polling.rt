// A stream of scans as a stream of `futures`.
ghost use Rattle.std.specs.Prelude.{[], IfSome};
ghost use Rattle.futures.specs.Runs.{After, Within};
ghost use Rattle.futures.specs.Task.{Covers, Keeps};
ghost use Rattle.futures.specs.Poll.{IfReady, OnPending};
ghost use Rattle.cm_stream.specs.Polled.{comes_from, step_of};
ghost use Rattle.cm_stream.specs.Step.{HasStepped};

use crate::scan::Scan;
use crate::step::StreamStep;
use crate::stream::ScanStream;
use cm_base::transfer::NoMemory;
use cm_sample::planned::Planned;
use futures::Stream;
use futures::task::{Context, Poll};

impl<P: Planned> Stream for ScanStream<P> {
    type Item = Result<Scan, NoMemory>;

    ghost yields = { comes_from };

    /// One step. Where it waits, the poll asks to be polled again.
    fn poll_next(&mut self, cx: &mut Context<'_>) -> Poll<Option<Result<Scan, NoMemory>>>
        ensures stepped { HasStepped (step_of result) self.old self.new }
        ensures value { IfReady result (comes_from self.old []) }
        ensures rest { IfReady result (λ o. IfSome o (λ x. After (comes_from self.old) x (comes_from self.new))) }
        ensures same { OnPending result (Within (comes_from self.old) (comes_from self.new)) }
        ensures registered { OnPending result (Covers cx.new (λ _. ⊥)) }
        ensures kept { Keeps cx.old cx.new }
    {
        match self.step() {
            StreamStep::Given(scan) => Poll::Ready(Some(Ok(scan))),
            StreamStep::Ended => Poll::Ready(None),
            StreamStep::NoMemory => Poll::Ready(Some(Err(NoMemory))),
            StreamStep::Waiting => cx.yield_now(),
        }
    }
}
