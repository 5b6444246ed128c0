// Words made of parts, with a byte between two parts.
ghost use Rattle.std.specs.Prelude.{◌≡◌, ◌<◌, length, take};
ghost use Rattle.std.specs.List.{slice_split};
ghost use Rattle.cm_base.specs.Reading.{seen};
ghost use Rattle.cm_base.specs.Words.{two_words, three_words};
ghost use Rattle.cm_base.specs.Stops.{is_byte};

use cm_base::faults::Fault;
use cm_base::lanes::first_byte;
use cm_base::words::after;

/// What stands before a place.
pub fn before(text: &[u8], at: usize) -> &[u8]
    requires { at < length text.now }
    ensures { result.now ≡ take at text.now }
{
    &text[..at]
}

/// The two parts of a word with one separator.
#[tactic(auto, using(crate::proofs::Cuts::one_is_not_two, crate::proofs::Cuts::two_are_two, crate::proofs::Cuts::more_are_not_two))]
pub fn two_parts(text: &[u8], separator: u8) -> Result<(&[u8], &[u8]), Fault>
    ensures { seen (λ w. (w.0.now, w.1.now)) result ≡ two_words (slice_split (is_byte separator) text.now) }
{
    let Some(at) = first_byte(text, separator) else {
        return Err(Fault::BadLine);
    };
    let rest = after(text, at);
    match first_byte(rest, separator) {
        None => Ok((before(text, at), rest)),
        Some(_) => Err(Fault::BadLine),
    }
}

/// The three parts of a word with two separators.
#[tactic(auto, using(crate::proofs::Cuts::one_is_not_three, crate::proofs::Cuts::three_are_one_and_two))]
pub(crate) fn three_parts(text: &[u8], separator: u8) -> Result<(&[u8], &[u8], &[u8]), Fault>
    ensures { seen (λ w. (w.0.now, w.1.now, w.2.now)) result ≡ three_words (slice_split (is_byte separator) text.now) }
{
    let Some(at) = first_byte(text, separator) else {
        return Err(Fault::BadLine);
    };
    let (second, third) = two_parts(after(text, at), separator)?;
    Ok((before(text, at), second, third))
}
