// The top call of the program.
ghost use Rattle.std.specs.Prelude.{◌≤◌, length};
ghost use Rattle.cm_base.specs.Reading.{seen};
ghost use Rattle.cm_base.specs.ReadStop.{Gives};
ghost use Rattle.cm_cli.specs.Answers.{end_at};
ghost use Rattle.cm_facts.specs.Answers.{Answers, IsTold, said};
ghost use Rattle.cm_facts.specs.Inquiries as spec;

use crate::describing::describe;
use crate::inquiry::{Inquiry, inquiry_of};
use cm_base::faults::ReadStop;
use cm_base::outside::{Sink, Source};
use cm_cli::flow::{conclude, read_input, report};
use cm_cli::status::Status;
use cm_cli::stop::Stop;
use std::alloc::Global;

/// Answers the inquiry that the arguments name about the input, and writes the answer: nothing is written
/// before the input is read whole and its facts are known.
///
/// Whatever the input says, status 0 comes with exactly the facts of the definitions for the bytes that
/// the source had left.
pub fn comedi_facts<S: Source, K: Sink>(
    alloc: Global,
    words: &[String],
    source: &mut S,
    sink: &mut K,
) -> Status
    ensures { Answers (spec.inquiry_of words.now) result
        (end_at (S.left source.old) (S.faults source.old)) (end_at (S.left source.new) (S.faults source.new))
        (end_at (K.text sink.old) (K.faults sink.old)) (end_at (K.text sink.new) (K.faults sink.new)) }
{
    match inquiry_of(words) {
        None => conclude(sink, b"usage\n", Status::Usage),
        Some(inquiry) => match tell(alloc, inquiry, source) {
            Ok(text) => conclude(sink, &text, Status::Done),
            Err(stop) => report(alloc, Err(stop), sink),
        },
    }
}

// Returns what the input says to an inquiry.
fn tell<S: Source>(alloc: Global, inquiry: Inquiry, source: &mut S) -> Result<Vec<u8>, Stop>
    ensures { IsTold inquiry (seen (λ text. text.items) result)
        (end_at (S.left source.old) (S.faults source.old)) (end_at (S.left source.new) (S.faults source.new)) }
{
    let bytes = read_input(alloc, source)?;
    let text = answer_about(alloc, inquiry, bytes)?;
    Ok(text)
}

// Returns what a text says to an inquiry.
fn answer_about(alloc: Global, inquiry: Inquiry, text: Vec<u8>) -> Result<Vec<u8>, ReadStop>
    requires { length text.items ≤ 1048576 }
    ensures { Gives (λ answer. answer.items) result (said inquiry text.items) }
{
    match inquiry {
        Inquiry::Describe => describe(alloc, text),
    }
}
