// The words with which the program is called.
ghost use Rattle.std.specs.Prelude.{◌≡◌, ◌≢◌, [], drop, IfErr, IfOk};
ghost use Rattle.std.specs.Vec.Iter.{into_iter_items};
ghost use Rattle.std.specs.declared.io.ErrorKind.TheVariants.{OutOfMemory};
ghost use Rattle.cm_cli.specs.Answers.{end_at};
ghost use Rattle.cm_cli.specs.Asked.{AnswersAsked, AreAfterName};

use crate::comedi::comedi;
use crate::status::Status;
use cm_base::gate::Gate;
use cm_base::outside::{Sink, Source};
use std::alloc::{AllocError, Global};
use std::env::Args;
use std::io;
use std::sync::Wait;
use std::thread::Threads;

/// Does as `comedi` by the words that the process was given, of which the first is its name. Where one
/// of them isn't UTF-8 they name no command. Where memory kept them from being read it wants memory, and
/// nothing is read or written.
pub fn comedi_as_asked<R: Threads + Wait + Sync, S: Source, K: Sink, G: Gate + Sync>(
    rt: &R,
    alloc: Global,
    given: io::Result<Args>,
    source: &mut S,
    sink: &mut K,
    gate: &G,
) -> Status
    ensures { AnswersAsked given result
        (end_at (S.left source.old) (S.faults source.old)) (end_at (S.left source.new) (S.faults source.new))
        (end_at (K.text sink.old) (K.faults sink.old)) (end_at (K.text sink.new) (K.faults sink.new)) }
{
    match words_after_name(alloc, given) {
        Ok(words) => comedi(rt, alloc, &words, source, sink, gate),
        Err(_) => Status::NoMemory,
    }
}

/// Returns the words after the program's name, and none if they can't be read. Want of memory is an error.
pub fn words_after_name(alloc: Global, given: io::Result<Args>) -> Result<Vec<String>, AllocError>
    ensures { AreAfterName given result }
{
    match given {
        Ok(all) => after_first(alloc, all),
        Err(error) => missing(alloc, error.kind()),
    }
}

// Returns all words except the first.
fn after_first(alloc: Global, all: Args) -> Result<Vec<String>, AllocError>
    ensures { IfOk result (λ words. words.items ≡ drop 1 (into_iter_items all)) }
{
    all.skip(1).collect(alloc)
}

// Returns what there is in place of words that can't be had.
fn missing(alloc: Global, kind: io::ErrorKind) -> Result<Vec<String>, AllocError>
    ensures none { IfOk result (λ words. (words.items ≡ []) × (kind ≢ OutOfMemory)) }
    ensures lacking { IfErr result (λ lack. kind ≡ OutOfMemory) }
{
    if kind == io::ErrorKind::OutOfMemory {
        Err(AllocError)
    } else {
        Ok(Vec::new(alloc))
    }
}
