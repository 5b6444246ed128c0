// The cases of a round, and the line that each of them prints.
ghost use Rattle.std.specs.Prelude.{◌≡◌, ◌*◌, ◌%◌, ◌^◌, ◌<◌, ◌≤◌, ◌==◌, if◌then◌else◌, IfOk, IsErrAnd, MatchResult};
ghost use Rattle.std.specs.IoError.{error_kind};
ghost use Rattle.std.specs.declared.io.ErrorKind.TheVariants.{OutOfMemory};
ghost use Rattle.cm_load.specs.Asking.{few_of, round_of, some_of};
ghost use Rattle.cm_load.specs.Coming.{all_of};
ghost use Rattle.cm_load.specs.Words.{IsMost};

use crate::moving::{move_by_four, move_words};
use crate::reading::Came;
use crate::words::{Stretch, first_words};
use cm_base::transfer::NoMemory;
use std::alloc::{AllocError, Global};
use std::io;
use std::rt::Clock;
use std::sync::Wait;
use std::thread::Threads;
use std::time::Instant;

/// What is asked of a run.
#[derive(Clone, Copy, Drop)]
pub struct Load {
    /// How many samples go through the rings: a tenth of them through one of 64 cells, and a
    /// thousandth through one of fewer.
    pub samples: u32,
    /// How often all cases are run.
    pub rounds: u32,
    /// Whether lines end with times.
    pub times: bool,
}

// A ring of few cells costs a change of threads each time that it is full.
fn few_of(samples: u32) -> u32
    ensures { result ≡ few_of samples }
{
    (samples / 1000).max(1)
}

fn some_of(samples: u32) -> u32
    ensures { result ≡ some_of samples }
{
    (samples / 10).max(1)
}

/// How many samples go through all rings of a round.
pub fn samples_of_round(samples: u32) -> u32
    ensures { result ≡ round_of samples }
{
    few_of(samples)
        .wrapping_mul(9)
        .wrapping_add(some_of(samples).wrapping_mul(3))
        .wrapping_add(samples.wrapping_mul(4))
}

/// Runs all cases, and reports what came in all of them.
pub fn run_round<R: Threads + Wait + Sync + Print + Clock>(
    rt: &R,
    alloc: Global,
    asked: Load,
) -> io::Result<Came>
    ensures { IfOk result (λ came. came ≡ all_of (round_of asked.samples)) }
{
    let few = few_of(asked.samples);
    let one = run_size(rt, alloc, asked, 1, few)?;
    let two = run_size(rt, alloc, asked, 2, few)?;
    let three = run_size(rt, alloc, asked, 3, few)?;
    let small = run_size(rt, alloc, asked, 64, some_of(asked.samples))?;
    let large = run_size(rt, alloc, asked, 65_536, asked.samples)?;
    let four = run_four(rt, alloc, asked)?;
    Ok(one.and(two).and(three).and(small).and(large).and(four))
}

// The numbers at which the shared counts start: they wrap never, after six samples, and after one.
const NEVER: u32 = 0;

const AFTER_SIX: u32 = 4_294_967_290;

const AFTER_ONE: u32 = 4_294_967_295;

// The cases of a size: from each base.
fn run_size<R: Threads + Wait + Sync + Print + Clock>(
    rt: &R,
    alloc: Global,
    asked: Load,
    size: u32,
    samples: u32,
) -> io::Result<Came>
    requires { (0 < size) × (size ≤ 1048576) }
    ensures { IfOk result (λ came. came ≡ all_of (3 * samples % 2 ^ 32)) }
{
    let never = run_base(rt, alloc, asked, size, NEVER, samples)?;
    let late = run_base(rt, alloc, asked, size, AFTER_SIX, samples)?;
    let soon = run_base(rt, alloc, asked, size, AFTER_ONE, samples)?;
    Ok(never.and(late).and(soon))
}

// The greatest code of the samples from a base.
fn maxdata_of(base: u32) -> u32
    ensures value { result ≡ (if base == 0 then 65535 else 255) }
    ensures one { IsMost result }
{
    if base == NEVER { 65_535 } else { 255 }
}

// One case: a ring of a size, from a base.
fn run_base<R: Threads + Wait + Sync + Print + Clock>(
    rt: &R,
    alloc: Global,
    asked: Load,
    size: u32,
    base: u32,
    samples: u32,
) -> io::Result<Came>
    requires { (0 < size) × (size ≤ 1048576) }
    ensures { IfOk result (λ came. came ≡ all_of samples) }
{
    let maxdata = maxdata_of(base);
    let places = Stretch {
        first: 0,
        count: samples,
    };
    let words = first_words(alloc, samples, maxdata)?;
    let start = Instant::now(rt)?;
    let came = moved(move_words(rt, alloc, &words, places, size, base, maxdata))?;
    print!(rt; "size {size} base {base}: ")?;
    report(rt, asked, samples, came, start)?;
    Ok(came)
}

// Four rings at once.
#[tactic(auto, using(crate::proofs::Right::by_four))]
fn run_four<R: Threads + Wait + Sync + Print + Clock>(
    rt: &R,
    alloc: Global,
    asked: Load,
) -> io::Result<Came>
    ensures { IfOk result (λ came. came ≡ all_of asked.samples) }
{
    let places = Stretch {
        first: 0,
        count: asked.samples,
    };
    let words = first_words(alloc, asked.samples, 65_535)?;
    let start = Instant::now(rt)?;
    let came = moved(move_by_four(rt, alloc, &words, places, 65_535))?;
    print!(rt; "four rings of size 256: ")?;
    report(rt, asked, asked.samples, came, start)?;
    Ok(came)
}

// What came, where there was memory for it.
fn moved(came: Result<Came, NoMemory>) -> io::Result<Came>
    ensures { MatchResult came (λ c. result ≡ Ok c) (λ _. IsErrAnd result (λ e. error_kind e ≡ OutOfMemory)) }
{
    match came {
        Ok(came) => Ok(came),
        Err(NoMemory) => Err(AllocError.into()),
    }
}

// Prints what came of so many samples.
fn report<R: Print + Clock>(
    rt: &R,
    asked: Load,
    samples: u32,
    came: Came,
    start: Instant,
) -> io::Result<()> {
    let took = start.elapsed(rt)?;
    if came.is_whole(samples) {
        print!(rt; "{samples} samples in order")?;
    } else {
        print!(rt; "{} of {samples} samples, {} wrong", came.count, came.wrong)?;
    }
    if asked.times {
        let micros = (took.as_secs().saturating_mul(1_000_000))
            .saturating_add(took.subsec_micros() as u64)
            .max(1);
        print!(rt; ", {} thousand a second", samples as u64 * 1000 / micros)?;
    }
    println!(rt)?;
    Ok(())
}
