// The words with which the program is called.
ghost use Rattle.cm_cli.specs.Answers.{end_at};
ghost use Rattle.cm_facts.specs.Asked.{AnswersAsked};

use crate::comedi_facts::comedi_facts;
use cm_base::outside::{Sink, Source};
use cm_cli::asked::words_after_name;
use cm_cli::status::Status;
use std::alloc::Global;
use std::env::Args;
use std::io;

/// Answers as `comedi_facts` by the words that the process was given, of which the first is its name. If
/// one of them isn't UTF-8 they name no inquiry. If memory kept them from being read it wants memory, and
/// nothing is read or written.
pub fn facts_as_asked<S: Source, K: Sink>(
    alloc: Global,
    given: io::Result<Args>,
    source: &mut S,
    sink: &mut K,
) -> Status
    ensures { AnswersAsked given result
        (end_at (S.left source.old) (S.faults source.old)) (end_at (S.left source.new) (S.faults source.new))
        (end_at (K.text sink.old) (K.faults sink.old)) (end_at (K.text sink.new) (K.faults sink.new)) }
{
    match words_after_name(alloc, given) {
        Ok(words) => comedi_facts(alloc, &words, source, sink),
        Err(_) => Status::NoMemory,
    }
}
