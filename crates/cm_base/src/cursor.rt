// The lines of a text one at a time.
ghost use Rattle.std.specs.Prelude.{◌≡◌, ◌+◌, ◌<◌, ◌≤◌, ◌-◌, ◌^◌, [], ◌∷◌, drop, length, map, not, take, ◌==◌, IfOk, if◌then◌else◌};
ghost use Rattle.std.specs.List.{position_or_len};
ghost use Rattle.std.specs.Option.{MatchOption};
ghost use Rattle.cm_base.specs.Lines.{line_text, lines_of, raw_lines};
ghost use Rattle.cm_base.specs.LineView.{line_view};
ghost use Rattle.cm_base.specs.Parts.{begins};

use crate::lines::Line;
use crate::parts::begins;
use crate::splitting::{Found, count_lines, find_line, line_of_words};
use crate::transfer::NoMemory;
use std::alloc::{AllocError, Global};
use std::marker::Model;
use std::mem;

/// The lines of a text that count, and the number after the last line's. It keeps the text alone, from
/// the first line that counts on: a line's words are found when it is read.
#[derive(Drop)]
pub struct Lines<'a> {
    number: u32,
    text: &'a [u8],
    end: u32,
}

impl<'a> Model for Lines<'a> {
    ghost use Rattle.cm_base.specs.LinesView.{IsLines, LinesText, lines_text};

    ghost Value = { LinesText };

    ghost view = { λ l. lines_text l.number l.text.now };

    ghost invariant = { λ l. IsLines l.number l.text.now l.end };
}

/// The lines of a text that count, read one at a time.
#[derive(Drop)]
pub struct Cursor<'a> {
    rest: &'a [u8],
    number: u32,
}

impl<'a> Model for Cursor<'a> {
    ghost use Rattle.std.specs.Prelude.{List, ◌+◌, ◌<◌, ◌^◌, length};
    ghost use Rattle.cm_base.specs.Lines.{LineText, lines_from, raw_lines};

    ghost Value = { List LineText };

    ghost view = { λ c. lines_from c.number (raw_lines c.rest.now) };

    ghost invariant = { λ c. c.number + length c.rest.now < 2 ^ 32 };
}

/// The lines of a text, without the empty ones and the comments.
pub fn split_lines<'a>(_alloc: Global, text: &'a [u8]) -> Result<Lines<'a>, NoMemory>
    requires { length text.now < 2 ^ 32 - 1 }
    ensures list { IfOk result (λ lines. lines.list ≡ lines_of text.now) }
    ensures end { IfOk result (λ lines. lines.end ≡ length (raw_lines text.now) + 1) }
{
    let (number, text) = match find_line(1, text) {
        Some(found) => (found.number, found.from),
        None => (1, text),
    };
    Ok(Lines {
        number,
        text,
        end: number + count_lines(text),
    })
}

impl<'a> Lines<'a> {
    /// The number after the last line's.
    pub fn end(&self) -> u32
        ensures end { result ≡ self.now.end }
        ensures few { length self.now.list < result }
    {
        self.end
    }

    /// The lines from a place on.
    pub fn from(&self, at: usize) -> Cursor<'a>
        ensures { result ≡ drop at self.now.list }
    {
        let mut cursor = self.all();
        for _ in 0..at {
            if !cursor.skip() {
                return cursor;
            }
        }
        cursor
    }

    /// The lines up to the first whose first word is this one, with that line and their words, and its
    /// place, or how many lines there are where none begins so.
    pub fn through(&self, alloc: Global, key: &[u8]) -> Result<(Vec<Line<'a>>, usize), AllocError>
        ensures place { IfOk result (λ r. r.1 ≡ position_or_len (begins key.now) self.now.list) }
        ensures within { IfOk result (λ r. r.1 ≤ length self.now.list) }
        ensures lines { IfOk result (λ r. map line_view r.0.items ≡ take (r.1 + 1) self.now.list) }
    {
        let mut list = Vec::new(alloc);
        let mut cursor = self.all();
        loop {
            let place = list.len();
            let mut line = Line::empty(alloc);
            if !cursor.next(alloc, &mut line)? {
                return Ok((list, place));
            }
            let is_last = begins(key, &line);
            list.push(line)?;
            if is_last {
                return Ok((list, place));
            }
        }
    }

    // All the lines.
    fn all(&self) -> Cursor<'a>
        ensures { result ≡ self.now.list }
    {
        Cursor {
            rest: self.text,
            number: self.number,
        }
    }
}

impl<'a> Cursor<'a> {
    /// Reads the next line into the memory of another one, and answers whether there is one. Where
    /// memory runs out the cursor has gone past the line too.
    pub fn next(&mut self, alloc: Global, line: &mut Line<'a>) -> Result<bool, AllocError>
        ensures line { IfOk result (λ more. self.old ≡ (if more then line_view line.new ∷ self.new else [])) }
        ensures rest { self.new ≡ drop 1 self.old }
    {
        match self.advance() {
            None => Ok(false),
            Some(found) => {
                let Line { words, .. } = mem::replace(line, Line::empty(alloc));
                *line = line_of_words(alloc, found.number, found.raw, words)?;
                Ok(true)
            }
        }
    }

    /// Goes past the next line without its words, and answers whether there is one.
    pub fn skip(&mut self) -> bool
        ensures more { result ≡ not (length self.old == 0) }
        ensures rest { self.new ≡ drop 1 self.old }
    {
        self.advance().is_some()
    }

    // The next line, which the cursor goes past.
    fn advance(&mut self) -> Option<Found<'a>>
        ensures line { MatchOption result (self.old ≡ []) (λ found. self.old ≡ line_text (found.number, found.raw.now) ∷ self.new) }
        ensures rest { self.new ≡ drop 1 self.old }
    {
        match find_line(self.number, self.rest) {
            None => None,
            Some(found) => {
                self.number = found.number + 1;
                self.rest = found.rest;
                Some(found)
            }
        }
    }
}
