// One command's ring, with a thread for each of its ends.
ghost use Rattle.std.specs.Prelude.{◌≡◌, ◌<◌, ◌≤◌, [], length, IfOk};
ghost use Rattle.cm_client.specs.Progress.{Accepts};
ghost use Rattle.cm_expand.specs.PlanView.{plan_text, plan_words};
ghost use Rattle.cm_expand.specs.Totals.{length_of};
ghost use Rattle.cm_ring_core.specs.Lawful.{first_writer};
ghost use Rattle.cm_client.specs.LineRing.{ring_of};
ghost use Rattle.cm_client.specs.Streamed.{EndsTruly, IsFresh, StreamsTo};
ghost use Rattle.cm_sample.specs.Rule.{IsRule};

use crate::boarding::put_words;
use crate::client::{ClientSide, GaveUp, Reads, Streamed, run_client};
use crate::words::{WordSource, Words};
use crate::workers::{TrueEnd, Worker, with_worker};
use cm_base::gate::Gate;
use cm_base::transfer::NoMemory;
use cm_expand::plan::Plan;
use cm_expand::rule::rule_of;
use cm_ring::open::open;
use cm_ring::writer::Closed;
use cm_sample::consuming::Consumer;
use cm_sample::planned::Planned;
use cm_sample::rule::MungeRule;
use cm_test::test::Accepted;
use crossbeam_utils::Backoff;
use std::alloc::Global;
use std::sync::Wait;
use std::thread::Threads;

/// The number at which the shared counts start: they wrap after the sixth sample.
pub const BASE: u32 = 4_294_967_290;

/// Streams words through a new ring to a consumer: one thread puts them, one munges them, one reads them.
pub fn stream_words<
    R: Threads + Wait + Sync,
    P: Planned + Drop + Send + Sync,
    W: Words + Send,
    C: Consumer + Send,
    G: Gate + Sync,
>(
    rt: &R,
    alloc: Global,
    plan: P,
    words: W,
    consumer: C,
    size: u32,
    rule: MungeRule,
    paced: bool,
    reads: Reads,
    gate: &G,
    who: u32,
) -> Result<Streamed<P, C>, NoMemory>
    requires size { (0 < size) × (size ≤ 1048576) }
    requires rule { IsRule rule }
    requires few { length (P.samples plan) ≤ 1099511627776 }
    requires plan { (P.samples plan ≡ W.all words) × (W.place words ≡ 0) }
    requires new { (C.count consumer ≡ 0) × (C.made consumer ≡ C.makes consumer []) }
    requires accepts { Accepts (C.accepts consumer) (record { size = size; rule = rule; samples = P.samples plan; paced = paced; base = 4294967290 }) }
    ensures { IfOk result (λ s. StreamsTo (C.made s.samples) (C.makes consumer) (record { size = size; rule = rule; samples = P.samples plan; paced = paced; base = 4294967290 }) reads.take s.end s.reader) }
{
    let (writer, munger, reader) = open(alloc, size, rule, paced, BASE, plan)?;
    let client = ClientSide { munger, reader };
    let (_, streamed) = with_worker(
        rt,
        TrueEnd,
        move || -> (Closed<P>, Backoff)
            requires { (writer.part ≡ first_writer) × (writer.ring.samples ≡ W.all words) × (W.place words ≡ 0) × (writer.ring.paced ≡ paced) }
            ensures { EndsTruly result.0 }
        { put_words(rt, writer, words, paced, Backoff::new(), gate, who) },
        move |board| -> Result<Streamed<P, C>, GaveUp<P>>
            requires { IsFresh client.reader × (C.count consumer ≡ 0) × (C.made consumer ≡ C.makes consumer []) × Accepts (C.accepts consumer) client.reader.ring }
            ensures { IfOk result (λ s. StreamsTo (C.made s.samples) (C.makes consumer) client.reader.ring reads.take s.end s.reader) × IfOk result (λ _. board ≡ Worker.Started) }
        { run_client(rt, client, consumer, board, reads, gate, who) },
    );
    Ok(streamed?)
}

/// Streams the expansion of a plan through a new ring to a consumer.
pub fn stream<'a, R: Threads + Wait + Sync, C: Consumer + Send, G: Gate + Sync>(
    rt: &R,
    alloc: Global,
    plan: Plan<'a>,
    consumer: C,
    size: u32,
    rule: MungeRule,
    paced: bool,
    reads: Reads,
    gate: &G,
    who: u32,
) -> Result<Streamed<Plan<'a>, C>, NoMemory>
    requires size { (0 < size) × (size ≤ 1048576) }
    requires rule { IsRule rule }
    requires few { length (plan_words plan) ≤ 1099511627776 }
    requires new { (C.count consumer ≡ 0) × (C.made consumer ≡ C.makes consumer []) }
    requires accepts { Accepts (C.accepts consumer) (record { size = size; rule = rule; samples = plan_words plan; paced = paced; base = 4294967290 }) }
    ensures { IfOk result (λ s. StreamsTo (C.made s.samples) (C.makes consumer) (record { size = size; rule = rule; samples = plan_words plan.entry; paced = paced; base = 4294967290 }) reads.take s.end s.reader) }
{
    let words = WordSource::with_items(alloc, plan)?;
    stream_words(
        rt, alloc, plan, words, consumer, size, rule, paced, reads, gate, who,
    )
}

/// Streams a command's expansion through a ring of the size of its subdevice's buffer to a consumer.
pub fn stream_command<'a, R: Threads + Wait + Sync, C: Consumer + Send, G: Gate + Sync>(
    rt: &R,
    alloc: Global,
    plan: Plan<'a>,
    cmd: &Accepted,
    consumer: C,
    paced: bool,
    reads: Reads,
    gate: &G,
    who: u32,
) -> Result<Streamed<Plan<'a>, C>, NoMemory>
    requires cmd { (plan_text plan).cmd ≡ cmd.now }
    requires few { length_of (plan_text plan) ≤ 4000000 }
    requires new { (C.count consumer ≡ 0) × (C.made consumer ≡ C.makes consumer []) }
    requires accepts { Accepts (C.accepts consumer) (ring_of (plan_text plan) paced) }
    ensures { IfOk result (λ s. StreamsTo (C.made s.samples) (C.makes consumer) (ring_of (plan_text plan.entry) paced) reads.take s.end s.reader) }
{
    let sub = plan.sub();
    let rule = rule_of(alloc, sub, cmd)?;
    stream(
        rt, alloc, plan, consumer, sub.buffer, rule, paced, reads, gate, who,
    )
}
