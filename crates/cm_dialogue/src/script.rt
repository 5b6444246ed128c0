// A client in memory, which fails at the calls that a list names.
ghost use Rattle.std.specs.Prelude.{ℕ, List, Option, Some, ◌≡◌, ◌≤◌, ◌++◌, [], ◌∷◌, map, OnOk, OnErr, true, vec_len};
ghost use Rattle.cm_base.specs.Causes.{Rose};
ghost use Rattle.cm_dialogue.specs.Turns.{Answer};

use crate::client::{Client, LINE_LIMIT};
use crate::first_line::first_line;
use cm_base::transfer::{NoMemory, ReadError, WriteFault};
use std::alloc::Global;

/// What was said with a client in memory.
#[derive(Drop)]
pub enum Spoken {
    Line(Vec<u8>),
    Answer(Vec<u8>),
}

/// A client that says the lines of a text, and keeps all that was said.
#[derive(Drop)]
pub struct Script {
    alloc: Global,
    text: Vec<u8>,
    at: usize,
    spoken: Vec<Spoken>,
    fails: Vec<u64>,
    calls: u64,
    faults: u64,
    ghost within: { at ≤ vec_len text },
}

impl Script {
    ghost use Rattle.cm_base.specs.Lines.{raw_lines};
    ghost use Rattle.cm_base.specs.Memory.{has_number, one_more};
    ghost use Rattle.cm_dialogue.specs.Script.{lines_left, spoken_turns};

    /// The calls whose numbers `fails` has fail. The first has number 1.
    pub fn new(alloc: Global, text: Vec<u8>, fails: Vec<u64>) -> Script
        ensures lines { lines_left result ≡ raw_lines text.items }
        ensures spoken { result.spoken.items ≡ [] }
        ensures fails { result.fails.items ≡ fails.items }
        ensures calls { result.calls ≡ 0 }
        ensures faults { result.faults ≡ 0 }
    {
        Script {
            alloc,
            text,
            at: 0,
            spoken: Vec::new(alloc),
            fails,
            calls: 0,
            faults: 0,
        }
    }

    /// All that was said, in order.
    pub fn spoken(&self) -> &[Spoken]
        ensures { result.now ≡ self.now.spoken.items }
    {
        &self.spoken
    }

    // Counts a call, and reports whether it fails.
    fn fails_now(&mut self) -> bool
        ensures same { self.new.spoken ≡ self.old.spoken }
        ensures lines { lines_left self.new ≡ lines_left self.old }
        ensures calls { self.new.calls ≡ one_more self.old.calls }
        ensures stays { self.new.fails.items ≡ self.old.fails.items }
        ensures named { result ≡ has_number self.old.fails.items self.new.calls }
        ensures fault { result ≡ true → Rose self.old.faults self.new.faults }
        ensures later { self.old.faults ≤ self.new.faults }
    {
        self.calls = self.calls.saturating_add(1);
        if !self.fails.contains(&self.calls) {
            return false;
        }
        self.faults = self.faults.saturating_add(1);
        true
    }

    // Keeps an answer.
    fn keep(&mut self, text: &[u8]) -> Result<(), NoMemory>
        ensures kept { OnOk result (spoken_turns self.new.spoken.items ≡ spoken_turns self.old.spoken.items ++ Answer text.now ∷ []) }
        ensures same { OnErr result (self.new.spoken.items ≡ self.old.spoken.items) }
        ensures lines { lines_left self.new ≡ lines_left self.old }
        ensures faults { self.new.faults ≡ self.old.faults }
    {
        let answer = Vec::from_slice(self.alloc, text)?;
        self.spoken.push(Spoken::Answer(answer))?;
        Ok(())
    }
}

impl Client for Script {
    ghost use Rattle.std.specs.Prelude.{Some};
    ghost use Rattle.cm_dialogue.specs.Script.{lines_left, spoken_turns};

    ghost turns = { λ s. Some (spoken_turns s.spoken.items) };

    ghost ahead = { λ s. Some (lines_left s) };

    ghost faults = { λ s. s.faults };

    fn hear(&mut self, line: &mut Vec<u8>) -> Result<bool, ReadError> {
        if self.fails_now() {
            return Err(ReadError::ReadFault);
        }
        let rest = &self.text[self.at..];
        if rest.is_empty() {
            return Ok(false);
        }
        let next = first_line(rest);
        if next.len() > LINE_LIMIT {
            return Err(ReadError::TooLong);
        }
        line.extend_from_slice(next)?;
        let heard = Vec::from_slice(self.alloc, next)?;
        let count = next.len();
        let after = if count < rest.len() { count + 1 } else { count };
        self.spoken.push(Spoken::Line(heard))?;
        self.at += after;
        Ok(true)
    }

    /// Fails at the calls that were named, and where memory runs out.
    fn say(&mut self, text: &[u8]) -> Result<(), WriteFault> {
        if self.fails_now() {
            return Err(WriteFault);
        }
        match self.keep(text) {
            Ok(()) => Ok(()),
            Err(NoMemory) => {
                self.faults = self.faults.saturating_add(1);
                Err(WriteFault)
            }
        }
    }
}
