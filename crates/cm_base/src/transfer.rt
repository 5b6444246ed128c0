// Reads to the end, and writes of a whole text.
ghost use Rattle.std.specs.Prelude.{◌≡◌, ◌<◌, ◌≤◌, [], length, IfOk, OnOk, OnErr, IsErrOf};
ghost use Rattle.std.specs.Io.KnownBytes.{Appends};
ghost use Rattle.cm_base.specs.Causes.{Rose};
ghost use Rattle.cm_base.specs.Transfer.{AppendsPrefix, Moves, ReadsAll, ReadsPast};
ghost use Rattle.cm_base.specs.declared.transfer.ReadError.TheVariants.{NoMemory};
ghost use Rattle.cm_base.specs.declared.transfer.TextStop.TheVariants as text_stops;

use crate::outside::{Failed, Sink, Source};
use std::alloc::{AllocError, AllocFailed, Global};

/// Memory ran out.
#[derive(Clone, Copy, Debug, PartialEq, Eq)]
pub struct NoMemory;

impl From<AllocError> for NoMemory {
    fn from(_: AllocError) -> Self {
        NoMemory
    }
}

impl<T: Drop> From<AllocFailed<T>> for NoMemory {
    fn from(_: AllocFailed<T>) -> Self {
        NoMemory
    }
}

/// The sink failed.
#[derive(Clone, Copy, Debug, PartialEq, Eq)]
pub struct WriteFault;

/// Why a text isn't written whole.
#[derive(Clone, Copy, Debug, PartialEq, Eq)]
pub enum TextStop {
    NoMemory,
    WriteFault,
}

impl From<NoMemory> for TextStop {
    ghost from_gives = { λ _ e. e ≡ text_stops.NoMemory };

    fn from(_: NoMemory) -> TextStop {
        TextStop::NoMemory
    }
}

impl From<WriteFault> for TextStop {
    ghost from_gives = { λ _ e. e ≡ text_stops.WriteFault };

    fn from(_: WriteFault) -> TextStop {
        TextStop::WriteFault
    }
}

/// Why a read gave nothing: of a whole input, or of a line.
#[derive(Clone, Copy, Debug, PartialEq, Eq)]
pub enum ReadError {
    NoMemory,
    ReadFault,
    TooLong,
}

impl From<AllocError> for ReadError {
    ghost from_gives = { λ _ e. e ≡ NoMemory };

    fn from(_: AllocError) -> Self {
        ReadError::NoMemory
    }
}

impl<T: Drop> From<AllocFailed<T>> for ReadError {
    ghost from_gives = { λ _ e. e ≡ NoMemory };

    fn from(_: AllocFailed<T>) -> Self {
        ReadError::NoMemory
    }
}

// How many bytes are moved at once.
const PIECE: usize = 65536;

/// Reads to the end, at most `limit` bytes.
pub fn read_all<S: Source>(alloc: Global, source: &mut S, limit: u32) -> Result<Vec<u8>, ReadError>
    ensures all { IfOk result (λ v. ReadsAll (S.left source.old) (S.left source.new) v.items) }
    ensures within { IfOk result (λ v. length v.items ≤ limit) }
    ensures too_long { IsErrOf result ReadError.TooLong → ReadsPast (S.left source.old) (S.left source.new) limit }
    ensures fault { IsErrOf result ReadError.ReadFault → Rose (S.faults source.old) (S.faults source.new) }
    ensures later { S.faults source.old ≤ S.faults source.new }
{
    let mut bytes = Vec::new(alloc);
    let mut chunk = [0u8; PIECE];
    while bytes.len() <= limit as usize {
        let room = (limit as usize - bytes.len() + 1).min(PIECE);
        match source.read(&mut chunk[..room]) {
            Err(Failed) => return Err(ReadError::ReadFault),
            Ok(0) => return Ok(bytes),
            Ok(count) => bytes.extend_from_slice(&chunk[..count])?,
        }
    }
    Err(ReadError::TooLong)
}

/// Writes the whole text, up to the first fault.
pub fn write_all<K: Sink>(sink: &mut K, text: &[u8]) -> Result<(), WriteFault>
    ensures ok { OnOk result (Appends (K.text sink.old) (K.text sink.new) text.now) }
    ensures prefix { OnErr result (AppendsPrefix (K.text sink.old) (K.text sink.new) text.now) }
    ensures fault { OnErr result (Rose (K.faults sink.old) (K.faults sink.new)) }
    ensures later { K.faults sink.old ≤ K.faults sink.new }
{
    let mut done = 0;
    while done < text.len() {
        match sink.write(&text[done..]) {
            Ok(count) => done += count,
            Err(Failed) => return Err(WriteFault),
        }
    }
    Ok(())
}

/// Writes all that has gathered, and begins to gather anew in the same room.
pub fn flush<K: Sink>(sink: &mut K, text: &mut Vec<u8>) -> Result<(), WriteFault>
    ensures ok { OnOk result (Appends (K.text sink.old) (K.text sink.new) text.old.items) }
    ensures empty { OnOk result (text.new.items ≡ []) }
    ensures prefix { OnErr result (AppendsPrefix (K.text sink.old) (K.text sink.new) text.old.items) }
    ensures fault { OnErr result (Rose (K.faults sink.old) (K.faults sink.new)) }
    ensures later { K.faults sink.old ≤ K.faults sink.new }
{
    write_all(sink, text)?;
    text.clear();
    Ok(())
}

/// Writes what has gathered where it is a piece of 64 KiB or more.
pub fn flush_full<K: Sink>(sink: &mut K, text: &mut Vec<u8>) -> Result<(), WriteFault>
    ensures ok { OnOk result (Moves (K.text sink.old) (K.text sink.new) text.old.items text.new.items) }
    ensures small { OnOk result (length text.new.items < 65536) }
    ensures prefix { OnErr result (AppendsPrefix (K.text sink.old) (K.text sink.new) text.old.items) }
    ensures fault { OnErr result (Rose (K.faults sink.old) (K.faults sink.new)) }
    ensures later { K.faults sink.old ≤ K.faults sink.new }
{
    if text.len() < PIECE {
        Ok(())
    } else {
        flush(sink, text)
    }
}
