// Output commands, whose words stand in the job.
ghost use Rattle.std.specs.Prelude.{◌≡◌, ◌≤◌, ◌++◌, [], true, length, IfOk, None};
ghost use Rattle.cm_ring.specs.Samples.{munged_plan};
ghost use Rattle.cm_expand.specs.Items.{items_of};
ghost use Rattle.cm_expand.specs.PlanView.{plan_text};
ghost use Rattle.cm_text.specs.Blocks as blocks;
ghost use Rattle.cm_run.specs.Driving.{IsDrive, IsFeedSide};
ghost use Rattle.cm_client.specs.Streamed.{EndsTruly, IsFresh, StreamsTo};
ghost use Rattle.cm_sample.specs.Rule.{IsRule};
ghost use Rattle.cm_text.specs.Outputs.{output_texts};
ghost use Rattle.cm_text.specs.Tails.{tail_text};

use crate::done::LineDone;
use cm_base::gate::Gate;
use cm_base::transfer::NoMemory;
use cm_client::client::{ClientSide, GaveUp, Reads, Streamed, run_client};
use cm_client::feeding::feed;
use cm_client::streaming::BASE;
use cm_client::workers::{TrueEnd, Worker, with_worker};
use cm_expand::plan::Plan;
use cm_expand::rule::rule_of;
use cm_ring::open::open;
use cm_ring::writer::{Closed, Writer};
use cm_sample::rule::MungeRule;
use cm_test::test::Accepted;
use cm_text::output_block::outputs_block;
use std::alloc::Global;
use std::sync::Wait;
use std::thread::Threads;

/// A `drive` line: an output command with its plan, and the client's words.
#[derive(Clone, Copy)]
pub struct Drive<'a> {
    pub plan: Plan<'a>,
    pub cmd: &'a Accepted,
    pub values: &'a [u32],
}

// What the client's thread, which feeds the ring, owns.
#[derive(Drop)]
struct FeedSide<'a> {
    writer: Writer<&'a [u32]>,
    words: &'a [u32],
}

// The client's thread.
fn run_feed<'a, R: Wait + Sync>(rt: &R, side: FeedSide<'a>) -> Closed<&'a [u32]>
    requires { IsFeedSide side }
    ensures of { result.ring ≡ side.entry.writer.ring }
    ensures end { EndsTruly result }
{
    let FeedSide { writer, words } = side;
    feed(rt, writer, words)
}

// Moves words through a new paced ring, and gives what comes out of it.
fn move_words<R: Threads + Wait + Sync, G: Gate + Sync>(
    rt: &R,
    alloc: Global,
    words: &[u32],
    size: u32,
    rule: MungeRule,
    gate: &G,
    who: u32,
) -> Result<Vec<u32>, NoMemory>
    requires size { (1 ≤ size) × (size ≤ 1048576) }
    requires rule { IsRule rule }
    requires few { length words.now ≤ 1024 }
    ensures { IfOk result (λ v. v.items ≡ munged_plan (record { size = size; rule = rule; samples = words.now; paced = true; base = 4294967290 })) }
{
    let kept = Vec::with_capacity(alloc, words.len())?;
    let (writer, munger, reader) = open(alloc, size, rule, true, BASE, words)?;
    let feeder = FeedSide { writer, words };
    let client = ClientSide { munger, reader };
    let reads = Reads {
        by_map: false,
        take: None,
    };
    let (_, streamed) = with_worker(
        rt,
        TrueEnd,
        move || -> Closed<&[u32]>
            requires { IsFeedSide feeder }
            ensures { EndsTruly result }
        { run_feed(rt, feeder) },
        move |feeding| -> Result<Streamed<&[u32], Vec<u32>>, GaveUp<&[u32]>>
            requires { IsFresh client.reader × (kept.items ≡ []) }
            ensures { IfOk result (λ s. StreamsTo s.samples.items (λ words. words) client.entry.reader.ring reads.take s.end s.reader) × IfOk result (λ _. feeding ≡ Worker.Started) }
        { run_client(rt, client, kept, feeding, reads, gate, who) },
    );
    let Streamed {
        samples,
        end: _,
        reader: _,
    } = streamed?;
    Ok(samples)
}

// The munged words of a line, by way of a ring of the size of its subdevice's buffer.
fn drive_words<R: Threads + Wait + Sync, G: Gate + Sync>(
    rt: &R,
    alloc: Global,
    drive: Drive<'_>,
    gate: &G,
    who: u32,
) -> Result<Vec<u32>, NoMemory>
    requires { IsDrive (plan_text drive.plan) drive.cmd.now drive.values.now }
    ensures { IfOk result (λ v. v.items ≡ blocks.munged_words (plan_text drive.entry.plan) drive.entry.values.now) }
{
    let sub = drive.plan.sub();
    let rule = rule_of(alloc, sub, drive.cmd)?;
    move_words(rt, alloc, drive.values, sub.buffer, rule, gate, who)
}

/// Moves the line's words through its ring, and makes its block. `sub` is its subdevice's number.
pub(crate) fn drive_line<'a, R: Threads + Wait + Sync, G: Gate + Sync>(
    rt: &R,
    alloc: Global,
    sub: u32,
    drive: Drive<'a>,
    gate: &G,
    who: u32,
) -> Result<LineDone<'a>, NoMemory>
    requires drive { IsDrive (plan_text drive.plan) drive.cmd.now drive.values.now }
    requires sub { (plan_text drive.plan).index ≡ sub }
    ensures { IfOk result (λ d. (d.block.items ≡ blocks.drive_block (plan_text drive.entry.plan) drive.entry.values.now) × (d.reader ≡ None)) }
{
    let words = drive_words(rt, alloc, drive, gate, who)?;
    let values = drive.values.len() as u64;
    let block = outputs_block(alloc, sub, drive.plan, &words, values)?;
    Ok(LineDone {
        block,
        reader: None,
    })
}
