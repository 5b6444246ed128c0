// Input commands, whose samples a client reads, and their blocks.
ghost use Rattle.std.specs.Prelude.{◌≡◌, [], IfOk};
ghost use Rattle.cm_client.specs.LineRing.{ring_of};
ghost use Rattle.cm_client.specs.Streamed.{StreamsTo};
ghost use Rattle.cm_expand.specs.PlanView.{plan_text};
ghost use Rattle.cm_block.specs.Going.{AcceptsSamples, IsGo};
ghost use Rattle.cm_job.specs.Modes.{is_paced};
ghost use Rattle.cm_run.specs.Ran.{HasGone};

use crate::done::LineDone;
use cm_base::gate::Gate;
use cm_base::transfer::NoMemory;
use cm_block::going::{Go, text_of, with_end};
use cm_client::client::{Reads, Streamed};
use cm_client::streaming::stream_command;
use cm_expand::plan::Plan;
use cm_job::line::Access;
use cm_sample::consuming::Consumer;
use std::alloc::Global;
use std::sync::Wait;
use std::thread::Threads;

/// Streams the line through a ring of the size of its subdevice's buffer to a consumer.
pub(crate) fn stream_go<'a, R: Threads + Wait + Sync, C: Consumer + Send, G: Gate + Sync>(
    rt: &R,
    alloc: Global,
    go: Go<'a>,
    consumer: C,
    gate: &G,
    who: u32,
) -> Result<Streamed<Plan<'a>, C>, NoMemory>
    requires go { IsGo (plan_text go.plan) go.cmd.now }
    requires new { (C.count consumer ≡ 0) × (C.made consumer ≡ C.makes consumer []) }
    requires accepts { AcceptsSamples (C.accepts consumer) (plan_text go.plan) }
    ensures { IfOk result (λ s. StreamsTo (C.made s.samples) (C.makes consumer) (ring_of (plan_text go.entry.plan) (is_paced go.entry.mode)) go.entry.take s.end s.reader) }
{
    let Go {
        plan,
        cmd,
        mode,
        access,
        take,
    } = go;
    let reads = Reads {
        by_map: access == Access::Map,
        take,
    };
    stream_command(
        rt,
        alloc,
        plan,
        cmd,
        consumer,
        mode.is_paced(),
        reads,
        gate,
        who,
    )
}

/// Streams the line, and makes its block.
pub(crate) fn go_line<'a, R: Threads + Wait + Sync, G: Gate + Sync>(
    rt: &R,
    alloc: Global,
    go: Go<'a>,
    gate: &G,
    who: u32,
) -> Result<LineDone<'a>, NoMemory>
    requires { IsGo (plan_text go.plan) go.cmd.now }
    ensures { IfOk result (λ d. HasGone (plan_text go.entry.plan) go.entry.mode go.entry.take d.block.items d.reader) }
{
    let lines = text_of(alloc, go)?;
    let streamed = stream_go(rt, alloc, go, lines, gate, who)?;
    let block = with_end(go, streamed.samples, streamed.end)?;
    Ok(LineDone {
        block,
        reader: Some(streamed.reader),
    })
}
