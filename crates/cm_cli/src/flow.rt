// The steps of every call: its input is read, and what was done is reported as a status.
ghost use Rattle.std.specs.Prelude.{◌≡◌, ◌≤◌, ◌⊎◌, length, MatchResult};
ghost use Rattle.std.specs.Io.KnownBytes.{Appends};
ghost use Rattle.cm_base.specs.Causes.{Rose};
ghost use Rattle.cm_base.specs.Transfer.{AppendsPrefix, ReadsAll};
ghost use Rattle.cm_cli.specs.Answers.{Declines, NotRead, Reports, end_at};

use crate::status::Status;
use crate::stop::Stop;
use cm_base::faults::{Fault, Refused};
use cm_base::outside::{Sink, Source};
use cm_base::transfer::{NoMemory, ReadError, WriteFault, read_all, write_all};
use cm_text::declining::refusal;
use std::alloc::Global;

// The most bytes that are read.
const BYTE_LIMIT: u32 = 1_048_576;

/// Returns the whole input. One of more than a mebibyte is refused.
pub fn read_input<S: Source>(alloc: Global, source: &mut S) -> Result<Vec<u8>, Stop>
    ensures { MatchResult result
        (λ bytes. ReadsAll (S.left source.old) (S.left source.new) bytes.items × (length bytes.items ≤ 1048576))
        (λ stop. NotRead stop (end_at (S.left source.old) (S.faults source.old)) (end_at (S.left source.new) (S.faults source.new))) }
{
    match read_all(alloc, source, BYTE_LIMIT) {
        Ok(bytes) => Ok(bytes),
        Err(ReadError::NoMemory) => Err(Stop::NoMemory),
        Err(ReadError::ReadFault) => Err(Stop::ReadFault),
        Err(ReadError::TooLong) => Err(Stop::Refused(Refused {
            line: 0,
            cause: Fault::TooLong,
        })),
    }
}

/// Returns the status of what was done. A refusal is written to the sink first.
pub fn report<K: Sink>(alloc: Global, done: Result<(), Stop>, sink: &mut K) -> Status
    ensures { Reports done result (end_at (K.text sink.old) (K.faults sink.old)) (end_at (K.text sink.new) (K.faults sink.new)) }
{
    match done {
        Ok(()) => Status::Done,
        Err(Stop::NoMemory) => Status::NoMemory,
        Err(Stop::ReadFault) => Status::ReadFault,
        Err(Stop::WriteFault) => Status::WriteFault,
        Err(Stop::Refused(refused)) => decline(alloc, refused, sink),
    }
}

// Writes why the input is refused.
fn decline<K: Sink>(alloc: Global, refused: Refused, sink: &mut K) -> Status
    ensures { Declines refused result (end_at (K.text sink.old) (K.faults sink.old)) (end_at (K.text sink.new) (K.faults sink.new)) }
{
    match refusal(alloc, refused) {
        Ok(text) => conclude(sink, &text, Status::Refused),
        Err(NoMemory) => Status::NoMemory,
    }
}

/// Writes a text, and returns the status. If the sink fails, the status is `WriteFault`.
pub fn conclude<K: Sink>(sink: &mut K, text: &[u8], status: Status) -> Status
    ensures { ((result ≡ status) × Appends (K.text sink.old) (K.text sink.new) text.now)
        ⊎ ((result ≡ Status.WriteFault) × AppendsPrefix (K.text sink.old) (K.text sink.new) text.now
        × Rose (K.faults sink.old) (K.faults sink.new)) }
{
    match write_all(sink, text) {
        Ok(()) => status,
        Err(WriteFault) => Status::WriteFault,
    }
}
