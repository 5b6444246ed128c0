// Lines that are gathered before they are appended to a longer text.
ghost use Rattle.std.specs.Prelude.{◌≡◌, ◌+◌, ◌*◌, ◌≤◌, ◌++◌, length};
ghost use Rattle.cm_text.specs.Repeated.{repeated};

use crate::bytes::Bytes;
use cm_base::transfer::NoMemory;
use std::marker::Model;

// The most bytes of a short line.
const SHORT: usize = 32;

// The most bytes that are gathered.
const ROOM: usize = 1024;

/// A line of at most 32 bytes.
pub(crate) type ShortLine = Bytes<SHORT>;

/// Lines that aren't appended to their text yet.
#[derive(Drop)]
pub(crate) struct Gathered {
    lines: Bytes<ROOM>,
}

impl Model for Gathered {
    ghost use Rattle.std.specs.Prelude.{ℕ, List};

    ghost Value = { List ℕ };

    ghost view = { λ g. g.lines };
}

impl Gathered {
    ghost use Rattle.std.specs.Prelude.{◌≡◌, ◌+◌, ◌≤◌, ◌++◌, [], length, OnOk};
    ghost use Rattle.cm_text.specs.Repeated.{repeated};

    /// No lines.
    #[inline(always)]
    pub fn new() -> Gathered
        ensures { result ≡ [] }
    {
        Gathered {
            lines: Bytes::new(),
        }
    }

    /// Appends all lines to their text.
    pub fn append_to(&mut self, text: &mut Vec<u8>) -> Result<(), NoMemory>
        ensures text { OnOk result (text.new.items ≡ text.old.items ++ self.old) }
        ensures none { OnOk result (self.new ≡ []) }
    {
        text.extend_from_slice(self.lines.as_slice())?;
        self.lines.clear();
        Ok(())
    }

    // Makes room for a short line: where there is none, all lines are appended to their text.
    #[inline(always)]
    fn make_room(&mut self, text: &mut Vec<u8>) -> Result<(), NoMemory>
        ensures text { OnOk result (text.new.items ++ self.new ≡ text.old.items ++ self.old) }
        ensures room { OnOk result (length self.new + 32 ≤ 1024) }
    {
        if self.lines.len() > ROOM - SHORT {
            self.append_to(text)?;
        }
        Ok(())
    }

    /// Puts a short line after the others, which are appended to their text first where they are many.
    #[inline(always)]
    pub fn add(&mut self, text: &mut Vec<u8>, line: &ShortLine) -> Result<(), NoMemory>
        ensures { OnOk result (text.new.items ++ self.new ≡ (text.old.items ++ self.old) ++ line.now) }
    {
        self.make_room(text)?;
        self.lines.append(line);
        Ok(())
    }

    /// Puts a short line after the others, so many times.
    #[inline(always)]
    pub fn add_times(
        &mut self,
        text: &mut Vec<u8>,
        line: &ShortLine,
        times: usize,
    ) -> Result<(), NoMemory>
        ensures { OnOk result (text.new.items ++ self.new ≡ (text.old.items ++ self.old) ++ repeated times line.now) }
    {
        let mut left = times;
        while left > 0 {
            self.make_room(text)?;
            let count = left.min((ROOM - self.lines.len()) / SHORT);
            append_times(&mut self.lines, line, count);
            left -= count;
        }
        Ok(())
    }

    /// Appends all lines to their text, and a line of any length after them.
    pub fn add_long(&mut self, text: &mut Vec<u8>, line: &[u8]) -> Result<(), NoMemory>
        ensures { OnOk result (text.new.items ++ self.new ≡ (text.old.items ++ self.old) ++ line.now) }
    {
        self.append_to(text)?;
        text.extend_from_slice(line)?;
        Ok(())
    }
}

// Puts a short line after others, so many times.
#[inline(always)]
fn append_times(lines: &mut Bytes<ROOM>, line: &ShortLine, times: usize)
    requires room { length lines.old + times * 32 ≤ 1024 }
    ensures { lines.new ≡ lines.old ++ repeated times line.now }
{
    // No write into the lines can change a copy, so it stays in registers.
    let own = line.copy();
    for _ in 0..times {
        lines.append(&own);
    }
}
