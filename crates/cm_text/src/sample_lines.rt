// What makes the lines of a command's samples.

use crate::kept::{KeptLine, none_kept, put_kept};
use crate::line_format::LineFormat;
use cm_base::transfer::NoMemory;
use cm_expand::plan::Plan;
use std::alloc::Global;
use std::marker::Model;

/// What makes the lines of a command's samples: their format, and the last line of each list entry,
/// since the next sample of the entry often has the same one.
#[derive(Drop)]
pub struct SampleLines<'a> {
    format: LineFormat<'a>,
    kept: Vec<KeptLine>,
}

impl<'a> Model for SampleLines<'a> {
    ghost use Rattle.cm_text.specs.SampleLines.{HasKept, format_view};
    ghost use Rattle.cm_text.specs.Format.{Format};

    ghost Value = { Format };

    ghost view = { format_view };

    ghost invariant = { HasKept };
}

impl<'a> SampleLines<'a> {
    ghost use Rattle.std.specs.Prelude.{◌≡◌, ℕ, ◌+◌, ◌<◌, ◌^◌, ◌++◌, length, slice_index, IfOk, OnOk};
    ghost use Rattle.cm_expand.specs.PlanView.{plan_text};
    ghost use Rattle.cm_text.specs.Format.{IsFormat, IsSample, format_of, sample_line, sample_lines};

    /// That of a plan's command, before its first sample.
    pub fn new(alloc: Global, plan: Plan<'a>) -> Result<SampleLines<'a>, NoMemory>
        requires { IsFormat (format_of (plan_text plan)) }
        ensures { IfOk result (λ lines. lines ≡ format_of (plan_text plan.entry)) }
    {
        let format = LineFormat::new(alloc, plan)?;
        let kept = none_kept(alloc, &format)?;
        Ok(SampleLines { format, kept })
    }

    /// Appends the lines of samples, the first of which is that of a place.
    #[inline(always)]
    pub fn put(&mut self, text: &mut Vec<u8>, place: u64, words: &[u32]) -> Result<(), NoMemory>
        requires { (i : ℕ) → i < length words.now → IsSample self.old (place + i) (slice_index words.now i) }
        ensures lines { OnOk result (text.new.items ≡ text.old.items ++ sample_lines self.old place words.now) }
        ensures format { self.new ≡ self.old }
    {
        put_kept(text, &mut self.kept, &self.format, place, words)
    }

    /// Appends the lines of samples in two parts, the second of which follows the first.
    pub fn put_parts(
        &mut self,
        text: &mut Vec<u8>,
        place: u64,
        first: &[u32],
        rest: &[u32],
    ) -> Result<(), NoMemory>
        requires places { place + length first.now < 2 ^ 64 }
        requires codes { (i : ℕ) → i < length first.now + length rest.now → IsSample self.old (place + i) (slice_index (first.now ++ rest.now) i) }
        ensures lines { OnOk result (text.new.items ≡ text.old.items ++ sample_lines self.old place (first.now ++ rest.now)) }
        ensures format { self.new ≡ self.old }
    {
        self.put(text, place, first)?;
        self.put(text, place + first.len() as u64, rest)
    }

    /// Appends the line of one sample, that of a place.
    pub fn put_one(&self, text: &mut Vec<u8>, place: u64, word: u32) -> Result<(), NoMemory>
        requires { IsSample self.now place word }
        ensures { OnOk result (text.new.items ≡ text.old.items ++ sample_line self.now place word) }
    {
        let index = (place % self.format.entries() as u64) as usize;
        self.format.put(text, index, word)
    }
}
