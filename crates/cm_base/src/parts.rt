// The lines of a part of a text.
ghost use Rattle.std.specs.Prelude.{◌≡◌, [], ◌∷◌, drop, map, IfOk, IsTrue};
ghost use Rattle.std.specs.List.{list_all};
ghost use Rattle.cm_base.specs.LineView.{line_view};
ghost use Rattle.cm_base.specs.Lines.{is_word};
ghost use Rattle.cm_base.specs.Parts.{begins, fixed_words};
ghost use Rattle.cm_base.specs.ReadStop.{Gives};
ghost use Rattle.cm_base.specs.declared.faults.ReadStop.TheVariants as stops;

use crate::faults::{Fault, ReadStop, Refused};
use crate::lines::Line;

/// Whether the line isn't bad and its first word is this one.
pub fn begins(key: &[u8], line: &Line<'_>) -> bool
    ensures { result ≡ begins key.now (line_view line.now) }
{
    if line.bad {
        return false;
    }
    match line.words.as_slice() {
        [] => false,
        [word, ..] => *word == key,
    }
}

/// The words after the first one.
pub fn after_key<'a, 'b>(words: &'b [&'a [u8]]) -> &'b [&'a [u8]]
    ensures value { map (λ word. word.now) result.now ≡ drop 1 (map (λ word. word.now) words.now) }
    ensures words { IsTrue (list_all (λ word. is_word word.now) words.now) → IsTrue (list_all (λ word. is_word word.now) result.now) }
{
    match words {
        [] => &[],
        [_, rest @ ..] => rest,
    }
}

/// The words after the one fixed word that may begin the line, and its number.
pub fn fixed<'a, 'b>(line: &'a Line<'b>, key: &[u8]) -> Result<(u32, &'a [&'b [u8]]), ReadStop>
    ensures value { Gives (λ r. (r.0, map (λ word. word.now) r.1.now)) result (fixed_words 0 key.now (line_view line.now ∷ [])) }
    ensures words { IfOk result (λ r. IsTrue (list_all (λ word. is_word word.now) r.1.now)) }
{
    if line.bad {
        Err(refused(line.number, Fault::BadLine))
    } else if begins(key, line) {
        Ok((line.number, after_key(line.words.as_slice())))
    } else {
        Err(refused(line.number, Fault::Missing))
    }
}

/// A text that is refused at a line.
pub fn refused(line: u32, cause: Fault) -> ReadStop
    ensures { result ≡ stops.Refused (record { line = line; cause = cause }) }
{
    ReadStop::Refused(Refused { line, cause })
}
