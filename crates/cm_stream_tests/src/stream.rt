// What comes of streams of scans that an executor polls, and of one that is collected beside a munger.
ghost use Rattle.std.specs.Prelude.{◌≡◌, ◌≤◌, IfOk};
ghost use Rattle.cm_ring_core.specs.Lawful.{first_writer};
ghost use Rattle.cm_stream.specs.Merging.{IsFresh};
ghost use Rattle.futures.specs.Task.{Keeps};

use cm_base::transfer::NoMemory;
use cm_board::board::Munge;
use cm_ring::munger::Munger;
use cm_ring::open::open;
use cm_ring::writer::Writer;
use cm_ring_core::view::{End, EndKind};
use cm_ring_tests::rule::rule_of;
use cm_stream::collect::collect_scans;
use cm_stream::merge::Merge;
use cm_stream::scan::Scan;
use cm_stream::stream::ScanStream;
use futures::executor::block_on;
use futures::task::{Context, Poll};
use futures::{Future, Stream};
use std::alloc::Global;
use std::mem::replace;
use std::sync::Wait;
use std::test::Fail;
use std::thread::{Threads, join, yield_now};

const PLAN: &[u32] = &[5, 6, 7, 8, 9, 10, 11];

// Puts a whole plan, and ends.
fn put_all(mut writer: Writer<&[u32]>, plan: &[u32])
    requires fresh { writer.part ≡ first_writer }
    requires plan { writer.ring.samples ≡ plan.now }
{
    for i in 0..plan.len() {
        if writer.put(plan[i]).is_err() {
            return;
        }
    }
    writer.publish();
    writer.end(EndKind::Done);
}

// The munger of a ring to which the whole plan is put, and a stream of its scans of `n`.
fn opened(
    alloc: Global,
    n: u32,
) -> Result<(Munger<&'static [u32]>, ScanStream<&'static [u32]>), NoMemory>
    requires { (1 ≤ n) × (n ≤ 8) }
    ensures { IfOk result (λ t. IsFresh t.1) }
{
    let rule = rule_of(alloc, Munge::Plain)?;
    let (writer, munger, reader) = open(alloc, 8, rule, true, 4294967290, PLAN)?;
    put_all(writer, PLAN);
    Ok((munger, ScanStream::new(alloc, reader, n)))
}

// Such a stream, whose samples are all munged.
fn munged(alloc: Global, n: u32) -> Result<ScanStream<&'static [u32]>, NoMemory>
    requires { (1 ≤ n) × (n ≤ 8) }
    ensures { IfOk result (λ stream. IsFresh stream) }
{
    let (mut munger, stream) = opened(alloc, n)?;
    munger.munge_some(9);
    Ok(stream)
}

// A merge of two of them, of scans of two and of three.
fn merged(alloc: Global) -> Result<Merge<&'static [u32]>, NoMemory> {
    let mut streams = Vec::new(alloc);
    streams.push(munged(alloc, 2)?)?;
    streams.push(munged(alloc, 3)?)?;
    Merge::new(alloc, streams)
}

// Tells a scan: its source, its first place and its words.
fn tell(told: &mut Vec<u64>, source: u32, scan: Scan) -> Result<(), NoMemory> {
    told.push(source as u64)?;
    told.push(scan.first)?;
    for word in scan.words {
        told.push(word as u64)?;
    }
    Ok(())
}

// What is told of a poll that waits.
const WAITS: u64 = 1000;

// Polls a stream, one of whose samples is munged after each poll that waits, and then a merge.
#[derive(Drop)]
struct Polls {
    alloc: Global,
    munger: Munger<&'static [u32]>,
    stream: Option<ScanStream<&'static [u32]>>,
    merge: Merge<&'static [u32]>,
    told: Vec<u64>,
}

impl Polls {
    // One poll, of the stream before its end, and of the merge after it. It reports whether the merge has ended.
    fn go_on(&mut self, cx: &mut Context<'_>) -> Result<bool, NoMemory>
        ensures { Keeps cx.old cx.new }
    {
        let polled = match &mut self.stream {
            Some(stream) => match stream.poll_next(cx) {
                Poll::Ready(Some(scan)) => Poll::Ready(Some((0, scan))),
                Poll::Ready(None) => Poll::Ready(None),
                Poll::Pending => Poll::Pending,
            },
            None => self.merge.poll_next(cx),
        };
        match polled {
            Poll::Ready(Some((source, scan))) => tell(&mut self.told, source, scan?)?,
            Poll::Ready(None) => return Ok(self.stream.take().is_none()),
            Poll::Pending => {
                self.told.push(WAITS)?;
                self.munger.munge_some(1);
            }
        }
        Ok(false)
    }
}

impl Future for Polls {
    type Output = Result<Vec<u64>, NoMemory>;

    fn poll(&mut self, cx: &mut Context<'_>) -> Poll<Result<Vec<u64>, NoMemory>> {
        match self.go_on(cx) {
            Ok(false) => cx.yield_now(),
            Ok(true) => Poll::Ready(Ok(replace(&mut self.told, Vec::new(self.alloc)))),
            Err(NoMemory) => Poll::Ready(Err(NoMemory)),
        }
    }
}

// The scans of the stream alone, and then those of the merge.
static TOLD: [u64; 48] = [
    1000, 1000, 1000, 0, 0, 5, 6, 7, 1000, 1000, 1000, 0, 3, 8, 9, 10, 1000, 0, 6, 11, 0, 0, 5, 6,
    1, 0, 5, 6, 7, 0, 2, 7, 8, 1, 3, 8, 9, 10, 0, 4, 9, 10, 1, 6, 11, 0, 6, 11,
];

// A source of a merge that has much doesn't keep the other one waiting.
#[test]
fn an_executor_polls_a_stream_and_a_merge(rt: HostRuntime) -> Result<(), Fail> {
    let (munger, stream) = opened(rt.alloc(), 3)?;
    let polls = Polls {
        alloc: rt.alloc(),
        munger,
        stream: Some(stream),
        merge: merged(rt.alloc())?,
        told: Vec::new(rt.alloc()),
    };
    let told = block_on(&rt, polls)??;
    assert!(rt; told.as_slice() == TOLD.as_slice());
    Ok(())
}

// The scans of three that are collected while another thread munges sample by sample, and the end.
fn collected<R: Threads + Wait + Sync>(
    rt: &R,
    alloc: Global,
) -> Result<(Vec<Scan>, End), NoMemory> {
    let (mut munger, mut stream) = opened(alloc, 3)?;
    let (_, came) = join(
        rt,
        move || {
            for _ in 0..7 {
                yield_now();
                munger.munge_some(1);
            }
        },
        move || -> Result<(Vec<Scan>, End), NoMemory>
            requires { IsFresh stream }
        { collect_scans(rt, alloc, &mut stream) },
    );
    came
}

static SCANS: [u64; 13] = [0, 0, 5, 6, 7, 0, 3, 8, 9, 10, 0, 6, 11];

#[test]
fn a_client_collects_beside_a_munger(rt: HostRuntime) -> Result<(), Fail> {
    let (scans, end) = collected(&rt, rt.alloc())?;
    let mut told = Vec::new(rt.alloc());
    for scan in scans {
        tell(&mut told, 0, scan)?;
    }
    let wanted = End {
        kind: EndKind::Done,
        count: 7,
    };
    assert!(rt; told.as_slice() == SCANS.as_slice() && end == wanted);
    Ok(())
}
