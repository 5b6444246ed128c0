// The top call without threads.
ghost use Rattle.std.specs.Prelude.{◌≡◌, false, IfSome};
ghost use Rattle.cm_cli.specs.Answers.{Answers, Does, end_at};
ghost use Rattle.cm_cli.specs.Commands as spec;
ghost use Rattle.cm_cli.specs.Headline.{TellsFor};
ghost use Rattle.cm_cli.specs.declared.status.Status.TheVariants.{Done};

use crate::command::{Command, task_of};
use crate::flow::{conclude, read_input, report};
use crate::law::what_is_told;
use crate::serving::serve;
use crate::status::Status;
use crate::stop::Stop;
use cm_base::outside::{Sink, Source};
use std::alloc::Global;

/// Does the command without threads that the arguments name with the input, and writes the answer.
///
/// Whatever the input says, status 0 comes with exactly the text of the definitions for the bytes
/// that the source had left, each sample in it once and munged once, in trigger order, with an
/// overrun at its exact sample. If the command is `replay` or `insn`, the bytes are read as a job, the
/// text is the answer to its session, and the headline holds of it (`law::the_headline`).
pub fn answer<S: Source, K: Sink>(
    alloc: Global,
    words: &[String],
    source: &mut S,
    sink: &mut K,
) -> Status
    ensures ends { Answers (spec.task_of words.now) result
        (end_at (S.left source.old) (S.faults source.old)) (end_at (S.left source.new) (S.faults source.new))
        (end_at (K.text sink.old) (K.faults sink.old)) (end_at (K.text sink.new) (K.faults sink.new)) }
    ensures headline { result ≡ Done → IfSome (S.left source.old) (λ bytes.
        TellsFor (spec.task_of words.now) bytes (K.text sink.old) (K.text sink.new)) }
{
    what_is_told();
    match task_of(words) {
        None => conclude(sink, b"usage\n", Status::Usage),
        Some(command) => {
            let done = answered(alloc, command, source, sink);
            report(alloc, done, sink)
        }
    }
}

// Does a command without threads.
pub(crate) fn answered<S: Source, K: Sink>(
    alloc: Global,
    command: Command,
    source: &mut S,
    sink: &mut K,
) -> Result<(), Stop>
    requires { spec.has_threads command ≡ false }
    ensures { Does command result
        (end_at (S.left source.old) (S.faults source.old)) (end_at (S.left source.new) (S.faults source.new))
        (end_at (K.text sink.old) (K.faults sink.old)) (end_at (K.text sink.new) (K.faults sink.new)) }
{
    let bytes = read_input(alloc, source)?;
    serve(alloc, command, &bytes, sink)
}
