// The top call of the program, with threads.
ghost use Rattle.std.specs.Prelude.{◌≡◌, ◌≤◌, true, IfSome, IsErrOf, Ok};
ghost use Rattle.cm_base.specs.Causes.{Rose};
ghost use Rattle.cm_cli.specs.Answers.{Answers, Does, end_at};
ghost use Rattle.cm_cli.specs.Commands as spec;
ghost use Rattle.cm_cli.specs.Headline.{TellsFor};
ghost use Rattle.cm_cli.specs.Said.{Soaks};
ghost use Rattle.cm_cli.specs.Serving.{Serves};
ghost use Rattle.cm_cli.specs.declared.status.Status.TheVariants.{Done};

use crate::answer::answered;
use crate::command::{Command, call_of};
use crate::flow::{conclude, read_input, report};
use crate::law::what_is_told;
use crate::status::Status;
use crate::stop::Stop;
use crate::threaded::stream;
use cm_base::gate::Gate;
use cm_base::outside::{Sink, Source};
use cm_base::transfer::write_all;
use cm_run::soak::whole::soak_whole;
use std::alloc::Global;
use std::sync::Wait;
use std::thread::Threads;

/// Does the command that the arguments name with the input, and writes the text: `run` streams the
/// lines of a job beside each other, `watch` does so with one client for all, `loop` filters an input
/// into an output, `soak N` streams a large job made from a number and reads no input, and the others
/// are those of `answer`. Where it runs threads, all of them have ended when it returns. A test may
/// hold them at the points of a gate.
///
/// Whatever the input says and whatever the order of the threads' steps, status 0 comes with exactly
/// the text of the definitions, and with `run` with one of the texts that they allow: each sample in
/// it once and munged once, in trigger order, and an overrun only in a free line, after as many samples
/// as its buffer holds or more. With `replay` and `insn` the headline holds, as of `answer`. The text of a `run`,
/// `watch` or `loop` has of each line a prefix of its munged expansion and its end. A soak leaves the source as it
/// is, however it ends.
pub fn comedi<R: Threads + Wait + Sync, S: Source, K: Sink, G: Gate + Sync>(
    rt: &R,
    alloc: Global,
    words: &[String],
    source: &mut S,
    sink: &mut K,
    gate: &G,
) -> Status
    ensures ends { Answers (spec.call_of words.now) result
        (end_at (S.left source.old) (S.faults source.old)) (end_at (S.left source.new) (S.faults source.new))
        (end_at (K.text sink.old) (K.faults sink.old)) (end_at (K.text sink.new) (K.faults sink.new)) }
    ensures headline { result ≡ Done → IfSome (S.left source.old) (λ bytes.
        TellsFor (spec.call_of words.now) bytes (K.text sink.old) (K.text sink.new)) }
{
    what_is_told();
    match call_of(words) {
        None => conclude(sink, b"usage\n", Status::Usage),
        Some(command) => {
            let done = performed(rt, alloc, command, source, sink, gate);
            report(alloc, done, sink)
        }
    }
}

// Does a command.
fn performed<R: Threads + Wait + Sync, S: Source, K: Sink, G: Gate + Sync>(
    rt: &R,
    alloc: Global,
    command: Command,
    source: &mut S,
    sink: &mut K,
    gate: &G,
) -> Result<(), Stop>
    requires { spec.IsSound command }
    ensures { Does command result
        (end_at (S.left source.old) (S.faults source.old)) (end_at (S.left source.new) (S.faults source.new))
        (end_at (K.text sink.old) (K.faults sink.old)) (end_at (K.text sink.new) (K.faults sink.new)) }
{
    match command {
        Command::Soak(n) => soaked(rt, alloc, n, sink, gate),
        Command::Run | Command::Watch | Command::Loop => {
            streamed(rt, alloc, command, source, sink, gate)
        }
        _ => answered(alloc, command, source, sink),
    }
}

// Streams a job with threads.
fn streamed<R: Threads + Wait + Sync, S: Source, K: Sink, G: Gate + Sync>(
    rt: &R,
    alloc: Global,
    command: Command,
    source: &mut S,
    sink: &mut K,
    gate: &G,
) -> Result<(), Stop>
    requires { spec.streams command ≡ true }
    ensures { Does command result
        (end_at (S.left source.old) (S.faults source.old)) (end_at (S.left source.new) (S.faults source.new))
        (end_at (K.text sink.old) (K.faults sink.old)) (end_at (K.text sink.new) (K.faults sink.new)) }
{
    let bytes = read_input(alloc, source)?;
    stream(rt, alloc, command, &bytes, sink, gate)
}

// Streams so many samples through four rings at once, and writes their numbers and sums.
fn soaked<R: Threads + Wait + Sync, K: Sink, G: Gate + Sync>(
    rt: &R,
    alloc: Global,
    n: u32,
    sink: &mut K,
    gate: &G,
) -> Result<(), Stop>
    requires { (1 ≤ n) × (n ≤ 4000000) }
    ensures said { Serves result (Ok (Soaks n)) (K.text sink.old) (K.text sink.new) }
    ensures fault { IsErrOf result Stop.WriteFault → Rose (K.faults sink.old) (K.faults sink.new) }
    ensures later { K.faults sink.old ≤ K.faults sink.new }
{
    let text = soak_whole(rt, alloc, n, gate)?;
    write_all(sink, &text)?;
    Ok(())
}
