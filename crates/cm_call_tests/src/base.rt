// Whole reads and writes over memory, and calls of a device that are interrupted.
ghost use Rattle.std.specs.Prelude.{◌≡◌, IfOk};

use cm_base::memory::{MemSink, MemSource};
use cm_base::outside::{Failed, Sink, Source};
use cm_base::standard::{StdSink, StdSource};
use cm_base::transfer::{NoMemory, ReadError, WriteFault, read_all, write_all};
use std::alloc::Global;
use std::io::{Error, ErrorKind, Read, Result as IoResult, Write};
use std::test::Fail;

const TEXT: &[u8] = b"seven words make one line of text";

// Reads the text in pieces of ten bytes, where one call fails. It gives what comes of it, and how many calls are made.
fn read_whole(alloc: Global, fails: u64) -> Result<(Result<Vec<u8>, ReadError>, u64), NoMemory> {
    let mut source = MemSource::new(TEXT.to_vec(alloc)?, 10, [fails].to_vec(alloc)?);
    let read = read_all(alloc, &mut source, 1000);
    Ok((read, source.calls()))
}

#[test]
fn a_whole_read_stops_at_the_first_fault(rt: HostRuntime) -> Result<(), Fail> {
    for fails in 1..7u64 {
        let (read, calls) = read_whole(rt.alloc(), fails)?;
        let right = match read {
            Ok(bytes) => fails == 6 && bytes.as_slice() == TEXT,
            Err(error) => fails < 6 && error == ReadError::ReadFault,
        };
        assert!(rt; right && calls == fails.min(5));
    }
    Ok(())
}

// Writes the text in pieces of ten bytes, where one call fails. It gives what comes of it, what was taken, and how many
// calls are made.
fn write_whole(alloc: Global, fails: u64) -> Result<(bool, Vec<u8>, u64), NoMemory> {
    let mut sink = MemSink::new(alloc, 100, 10, [fails].to_vec(alloc)?)?;
    let written = write_all(&mut sink, TEXT);
    Ok((written == Ok(()), sink.text().to_vec(alloc)?, sink.calls()))
}

#[test]
fn a_whole_write_stops_at_the_first_fault(rt: HostRuntime) -> Result<(), Fail> {
    for fails in 1..6usize {
        let (whole, taken, calls) = write_whole(rt.alloc(), fails as u64)?;
        let wanted = &TEXT[..(fails * 10 - 10).min(33)];
        assert!(rt;
            whole == (fails == 5) && taken.as_slice() == wanted && calls == fails.min(4) as u64
        );
    }
    Ok(())
}

// A device that signals interrupt some times. Then it moves all that it is asked for, or fails.
#[derive(Drop)]
struct Interrupted {
    times: u32,
    fails: bool,
}

impl Interrupted {
    // What the next call answers, of so many bytes.
    fn answer(&mut self, count: usize) -> IoResult<usize>
        ensures { IfOk result (λ moved. moved ≡ count) }
    {
        if self.times > 0 {
            self.times -= 1;
            Err(Error::from(ErrorKind::Interrupted))
        } else if self.fails {
            Err(Error::from(ErrorKind::BrokenPipe))
        } else {
            Ok(count)
        }
    }
}

impl Read for Interrupted {
    fn read(&mut self, buf: &mut [u8]) -> IoResult<usize> {
        self.answer(buf.len())
    }
}

impl Write for Interrupted {
    fn write(&mut self, buf: &[u8]) -> IoResult<usize> {
        self.answer(buf.len())
    }

    fn flush(&mut self) -> IoResult<()> {
        Ok(())
    }
}

// What a read and a write of four bytes give that are interrupted three times.
fn tried_again(fails: bool) -> [Result<usize, Failed>; 2] {
    let mut source = StdSource::new(Interrupted { times: 3, fails });
    let mut sink = StdSink::new(Interrupted { times: 3, fails });
    [source.read(&mut [0; 4]), sink.write(b"four")]
}

#[test]
fn an_interrupted_call_is_tried_again(rt: HostRuntime) {
    assert!(rt; tried_again(false) == [Ok(4); 2]);
    assert!(rt; tried_again(true) == [Err(Failed); 2]);
}
