// The lines of a command's samples, made as the samples come.

use crate::sample_lines::SampleLines;
use cm_base::transfer::NoMemory;
use cm_expand::plan::Plan;
use cm_sample::consuming::Consumer;
use std::alloc::Global;
use std::marker::Model;

// How many bytes are made ready for a sample's line, so that a long text is seldom moved.
const LINE: usize = 12;

/// The lines of a command's samples, made as the samples come.
#[derive(Drop)]
pub struct SampleText<'a> {
    lines: SampleLines<'a>,
    text: Vec<u8>,
    count: u64,
}

impl<'a> Model for SampleText<'a> {
    ghost use Rattle.cm_text.specs.SampleText.{LinesText, lines_text};

    ghost Value = { LinesText };

    ghost view = { lines_text };
}

impl<'a> SampleText<'a> {
    ghost use Rattle.std.specs.Prelude.{◌≡◌, ℕ, ◌+◌, ◌<◌, length, slice_index, IfOk, OnOk};
    ghost use Rattle.cm_expand.specs.PlanView.{plan_text};
    ghost use Rattle.cm_text.specs.SampleText.{CanReport, no_lines, with_lines};
    ghost use Rattle.cm_text.specs.Format.{IsFormat, format_of};

    /// Before the first sample of a plan's command. It makes ready for `room` samples, which is no limit.
    pub fn new(alloc: Global, plan: Plan<'a>, room: usize) -> Result<SampleText<'a>, NoMemory>
        requires { IsFormat (format_of (plan_text plan)) }
        ensures { IfOk result (λ t. t ≡ no_lines (format_of (plan_text plan.entry))) }
    {
        Ok(SampleText {
            lines: SampleLines::new(alloc, plan)?,
            text: Vec::with_capacity(alloc, room.saturating_mul(LINE))?,
            count: 0,
        })
    }

    /// Appends the lines of the next samples.
    pub fn put(&mut self, words: &[u32]) -> Result<(), NoMemory>
        requires { (i : ℕ) → i < length words.now → CanReport self.old (self.old.count + i) (slice_index words.now i) }
        ensures lines { OnOk result (self.new ≡ with_lines self.old words.now) }
        ensures format { self.new.format ≡ self.old.format }
    {
        self.lines.put(&mut self.text, self.count, words)?;
        self.count += words.len() as u64;
        Ok(())
    }

    /// The text of all samples.
    pub fn into_text(self) -> Vec<u8>
        ensures { result.items ≡ self.entry.text }
    {
        let SampleText {
            lines: _,
            text,
            count: _,
        } = self;
        text
    }
}

impl Consumer for SampleText<'_> {
    ghost use Rattle.cm_text.specs.SampleText.{CanReport};
    ghost use Rattle.cm_text.specs.Format.{sample_lines};

    ghost count = { λ t. t.count };

    ghost makes = { λ t. sample_lines t.format 0 };

    ghost made = { λ t. t.text };

    ghost accepts = { CanReport };

    fn consume(&mut self, words: &[u32]) -> Result<(), NoMemory> {
        self.put(words)?;
        Ok(())
    }
}
