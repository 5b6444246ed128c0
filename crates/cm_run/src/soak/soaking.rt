// A whole soak.
ghost use Rattle.std.specs.Prelude.{◌≡◌, ◌≤◌, map, IfOk};
ghost use Rattle.std.specs.List.{All};
ghost use Rattle.cm_run.specs.SoakJob.{soak_board, soak_job, soak_lines, soak_signals};
ghost use Rattle.cm_run.specs.Soak.{soak_parts};
ghost use Rattle.cm_run.specs.SoakSums as spec;

use crate::soak::part::{Part, Soaked, summary_of};
use crate::soak::summing::{Summed, summed_lines};
use cm_base::gate::Gate;
use cm_base::prover::shows;
use cm_base::transfer::NoMemory;
use cm_expand::plan::Plan;
use cm_job::job::RunJob;
use cm_ring::reader::Reader;
use std::alloc::Global;
use std::sync::Wait;
use std::thread::Threads;

// The parts of lines, and their readers.
fn apart<'a>(
    alloc: Global,
    lines: Vec<Summed<'a>>,
) -> Result<(Vec<Part>, Vec<Reader<Plan<'a>>>), NoMemory>
    ensures parts { IfOk result (λ r. r.0.items ≡ map (λ line. line.part) lines.entry.items) }
    ensures readers { IfOk result (λ r. r.1.items ≡ map (λ line. line.reader) lines.entry.items) }
{
    let mut parts = Vec::new(alloc);
    let mut readers = Vec::new(alloc);
    for line in lines {
        let Summed { part, reader } = line;
        parts.push(part)?;
        readers.push(reader)?;
    }
    Ok((parts, readers))
}

/// Streams the paced lines of a job beside each other, each with a board, a munger and a client on
/// threads of their own over a ring of its own, and answers after all have ended: for each of the first
/// four lines how many samples its client read, and their sum, and for each line the reader of its
/// ring, which released all of them and found the end after them.
#[tactic(auto, using(crate::proofs::SoakTotals::sums_at, crate::proofs::SoakTotals::sums_whole))]
pub fn sum_lines<'a, R: Threads + Wait + Sync, G: Gate + Sync>(
    rt: &R,
    alloc: Global,
    job: &'a RunJob,
    gate: &G,
) -> Result<Soaked<'a>, NoMemory>
    requires { All spec.IsSoakLine job.now.lines }
    ensures parts { IfOk result (λ s. s.summary.parts ≡ spec.parts_of job.now.board job.now.signals job.now.lines) }
    ensures readers { IfOk result (λ s. spec.AreWhole job.now.board job.now.signals job.now.lines s.readers.items) }
{
    let lines = summed_lines(rt, alloc, job, gate)?;
    let (parts, readers) = apart(alloc, lines)?;
    let summary = summary_of(&parts);
    Ok(Soaked { summary, readers })
}

/// Streams the lines of a soak of `n` conversions, as `sum_lines` does: for each of the four
/// subdevices how many samples were read and their sum, with zeros for one without a line.
pub fn soak<'a, R: Threads + Wait + Sync, G: Gate + Sync>(
    rt: &R,
    alloc: Global,
    n: u32,
    job: &'a RunJob,
    gate: &G,
) -> Result<Soaked<'a>, NoMemory>
    requires n { (1 ≤ n) × (n ≤ 4000000) }
    requires job { job.now ≡ soak_job n }
    ensures parts { IfOk result (λ s. s.summary.parts ≡ soak_parts n) }
    ensures readers { IfOk result (λ s. spec.AreWhole soak_board soak_signals (soak_lines n) s.readers.items) }
{
    // The number is here for the contract alone: the job stands for it.
    shows(&n);
    sum_lines(rt, alloc, job, gate)
}
