// Standard input and output as the client of a dialogue.
ghost use Rattle.std.specs.Prelude.{◌≡◌, ◌+◌, ◌<◌, ◌≤◌, ◌++◌, ℕ, [], None, length, IfOk, IsErrOf, OnOk, OnErr};
ghost use Rattle.std.specs.List.{before_first};
ghost use Rattle.std.specs.Io.KnownBytes.{Appends};
ghost use Rattle.cm_base.specs.Causes.{Rose};
ghost use Rattle.cm_base.specs.Lines.{is_line_feed};
ghost use Rattle.cm_base.specs.Transfer.{AppendsPrefix};
ghost use Rattle.cm_dialogue.specs.Standard.{Moved, Refilled, unheard_lines};

use crate::client::{Client, LINE_LIMIT};
use crate::first_line::first_line;
use cm_base::outside::{Failed, Source};
use cm_base::standard::{StdSink, StdSource};
use cm_base::transfer::{ReadError, WriteFault, write_all};
use std::alloc::{AllocError, Global};
use std::io::{Read, Write};
use std::marker::Model;

// How many bytes are read at once.
const PIECE: usize = 65536;

/// Any reader and any writer as a client. The turns through them aren't reported. Contracts see the
/// bytes that weren't heard yet and those that were said, as far as the reader and the writer tell them,
/// and the count of their faults.
#[derive(Drop)]
pub struct StdClient<R: Read, W: Write> {
    source: StdSource<R>,
    sink: StdSink<W>,
    // What was read and not heard yet: from one place up to another.
    piece: Vec<u8>,
    from: usize,
    to: usize,
}

impl<R: Read, W: Write> Model for StdClient<R, W> {
    ghost use Rattle.std.specs.Prelude.{◌≡◌, ◌+◌, ◌≤◌, length, slice_range};
    ghost use Rattle.cm_dialogue.specs.Standard.{Ends};

    ghost Value = { Ends };

    ghost view = { λ c. record { waiting = slice_range c.piece.items c.from c.to; left = R.remaining c.source.inner; text = W.contents c.sink.inner; faults = c.source.faults + c.sink.faults } };

    ghost invariant = { λ c. (c.from ≤ c.to) × (c.to ≤ length c.piece.items) × (length c.piece.items ≡ 65536) };
}

impl<R: Read + Drop, W: Write + Drop> StdClient<R, W> {
    /// Before the first line.
    pub fn new(alloc: Global, reader: R, writer: W) -> Result<StdClient<R, W>, AllocError>
        ensures waiting { IfOk result (λ c. c.waiting ≡ []) }
        ensures faults { IfOk result (λ c. c.faults ≡ 0) }
    {
        Ok(StdClient {
            source: StdSource::new(reader),
            sink: StdSink::new(writer),
            piece: Vec::from_elem(alloc, 0, PIECE)?,
            from: 0,
            to: 0,
        })
    }
}

impl<R: Read, W: Write> StdClient<R, W> {
    // Moves what waits, up to the next line feed or all where there is none, to the end of a line.
    // Reports whether there was one.
    fn take_line(&mut self, line: &mut Vec<u8>) -> Result<bool, ReadError>
        ensures moved { IfOk result (λ ended. Moved ended self.old self.new line.old.items line.new.items) }
        ensures short { IfOk result (λ _. length line.new.items ≤ 1048576) }
        ensures long { IsErrOf result ReadError.TooLong → 1048576 < length (line.old.items ++ before_first is_line_feed self.old.waiting) }
        ensures fault { ¬ IsErrOf result ReadError.ReadFault }
        ensures same { self.new.faults ≡ self.old.faults }
    {
        let rest = &self.piece[self.from..self.to];
        let part = first_line(rest);
        let count = part.len();
        if count > LINE_LIMIT || line.len() > LINE_LIMIT - count {
            return Err(ReadError::TooLong);
        }
        let ended = count < rest.len();
        line.extend_from_slice(part)?;
        self.from += if ended { count + 1 } else { count };
        Ok(ended)
    }

    // Reads more where all was heard. Reports whether there was anything.
    fn refill(&mut self) -> Result<bool, ReadError>
        requires { self.old.waiting ≡ [] }
        ensures refilled { IfOk result (λ some. Refilled some self.old self.new) }
        ensures long { ¬ IsErrOf result ReadError.TooLong }
        ensures fault { IsErrOf result ReadError.ReadFault → Rose self.old.faults self.new.faults }
        ensures later { self.old.faults ≤ self.new.faults }
    {
        match self.source.read(&mut self.piece) {
            Err(Failed) => Err(ReadError::ReadFault),
            Ok(count) => {
                self.from = 0;
                self.to = count;
                Ok(count > 0)
            }
        }
    }
}

impl<R: Read, W: Write> Client for StdClient<R, W> {
    ghost turns = { λ _. None };

    ghost ahead = { λ c. unheard_lines c };

    ghost faults = { λ c. c.faults };

    fn hear(&mut self, line: &mut Vec<u8>) -> Result<bool, ReadError> {
        while !self.take_line(line)? {
            if !self.refill()? {
                return Ok(!line.as_slice().is_empty());
            }
        }
        Ok(true)
    }

    fn say(&mut self, text: &[u8]) -> Result<(), WriteFault>
        ensures whole { OnOk result (Appends self.old.text self.new.text text.now) }
        ensures prefix { OnErr result (AppendsPrefix self.old.text self.new.text text.now) }
        ensures still { (self.new.waiting ≡ self.old.waiting) × (self.new.left ≡ self.old.left) }
        ensures fault { OnErr result (Rose self.old.faults self.new.faults) }
        ensures later { self.old.faults ≤ self.new.faults }
    {
        write_all(&mut self.sink, text)
    }
}
