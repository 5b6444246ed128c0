// What the words of a line say, each in its place.
ghost use Rattle.std.specs.Prelude.{[], map, ◌≡◌, ◌<◌, ◌≤◌, ◌^◌, ◌+◌, length, drop, IfOk, IfSome};
ghost use Rattle.std.specs.List.{position, slice_split};
ghost use Rattle.cm_base.specs.Source.{bit_of};
ghost use Rattle.cm_base.specs.Words.{each_word, up_to, values, number_below, number_in, one_and_more, two_and_more, three_and_more, signed_number, bit_from, bits_of, is_bar, source_of, source_in, sources_in, no_words, one_word, two_words, three_words, four_words};
ghost use Rattle.cm_base.specs.ReadStop.{Gives};
ghost use Rattle.cm_base.specs.Reading.{at_line, seen};

use crate::faults::{Fault, ReadStop, Refused};
use crate::lanes::first_byte;
use crate::numbers::{read_i64, read_u64};
use crate::source::{COUNT, EXT, FOLLOW, INT, NONE, NOW, OTHER, TIME, TIMER};
use std::alloc::Global;

/// A number from `least` to `most`.
pub fn number_in(word: &[u8], least: u32, most: u32) -> Result<u32, Fault>
    ensures value { result ≡ number_in least most word.now }
    ensures within { IfOk result (λ number. (least ≤ number) × (number ≤ most)) }
{
    match read_u64(word) {
        None => Err(Fault::BadNumber),
        Some(number) => {
            if (least as u64) <= number && number <= most as u64 {
                Ok(number as u32)
            } else {
                Err(Fault::Limit)
            }
        }
    }
}

/// A number of at most 18 digits from `least` to `most`, as a time in nanoseconds.
pub fn time_in(word: &[u8], least: u64, most: u64) -> Result<u64, Fault>
    ensures value { result ≡ number_in least most word.now }
    ensures within { IfOk result (λ number. (least ≤ number) × (number ≤ most) × (number < 10 ^ 18)) }
{
    match read_u64(word) {
        None => Err(Fault::BadNumber),
        Some(number) => {
            if least <= number && number <= most {
                Ok(number)
            } else {
                Err(Fault::Limit)
            }
        }
    }
}

/// A number below a limit.
pub fn number_below(word: &[u8], limit: u32) -> Result<u32, Fault>
    ensures value { result ≡ number_below limit word.now }
    ensures within { IfOk result (λ number. number < limit) }
{
    match read_u64(word) {
        None => Err(Fault::BadNumber),
        Some(number) => {
            if number < limit as u64 {
                Ok(number as u32)
            } else {
                Err(Fault::Limit)
            }
        }
    }
}

/// A signed number of 32 bits.
pub fn signed_number(word: &[u8]) -> Result<i32, Fault>
    ensures { result ≡ signed_number word.now }
{
    match read_i64(word) {
        None => Err(Fault::BadNumber),
        Some(number) => {
            if number < -2147483648 || 2147483647 < number {
                Err(Fault::Limit)
            } else {
                Ok(number as i32)
            }
        }
    }
}

/// At least one source, and none but those of the mask.
pub fn sources_in(word: &[u8], mask: u32) -> Result<u32, Fault>
    ensures { result ≡ sources_in mask word.now }
{
    let bits = source_of(word)?;
    if bits != 0 && bits & mask == bits {
        Ok(bits)
    } else {
        Err(Fault::Limit)
    }
}

/// One source, and none but those of the mask.
pub fn source_in(word: &[u8], mask: u32) -> Result<u32, Fault>
    ensures { result ≡ source_in mask word.now }
{
    let bits = sources_in(word, mask)?;
    if bits & bits.saturating_sub(1) == 0 {
        Ok(bits)
    } else {
        Err(Fault::Limit)
    }
}

/// The sources that a text names, none for `invalid`.
pub fn source_of(word: &[u8]) -> Result<u32, Fault>
    ensures { result ≡ source_of word.now }
{
    match bit_of(word) {
        Some(bit) => Ok(bit),
        None => sources_of(word),
    }
}

// The same, where the text mostly names several.
#[inline(never)]
fn sources_of(word: &[u8]) -> Result<u32, Fault>
    ensures { result ≡ source_of word.now }
{
    if word == b"invalid".as_slice() {
        Ok(0)
    } else {
        bits_of(word, 0)
    }
}

// The bits of the names between the bars, in rising order and none below `least`.
#[tactic(auto, using(crate::proofs::Names::bits_of_first, crate::proofs::Names::bits_of_last))]
fn bits_of(word: &[u8], least: u32) -> Result<u32, Fault>
    ensures { result ≡ bits_of least (slice_split is_bar word.now) }
{
    match first_bar(word) {
        None => bit_from(word, least),
        Some(at) => {
            let bit = bit_from(&word[..at], least)?;
            Ok(bit | bits_of(after(word, at), 2 * bit)?)
        }
    }
}

/// What stands after a place.
pub fn after(word: &[u8], at: usize) -> &[u8]
    requires { at < length word.now }
    ensures { result.now ≡ drop (at + 1) word.now }
{
    &word[at + 1..]
}

// The place of the first bar.
fn first_bar(word: &[u8]) -> Option<usize>
    ensures place { result ≡ position is_bar word.now }
    ensures within { IfSome result (λ at. at < length word.now) }
{
    first_byte(word, b'|')
}

// The bit of the source with this name, if it is not below `least`.
#[tactic(auto, using(crate::proofs::Names::bit_low))]
fn bit_from(name: &[u8], least: u32) -> Result<u32, Fault>
    ensures bit { result ≡ bit_from least name.now }
    ensures low { IfOk result (λ bit. bit ≤ 256) }
{
    match bit_of(name) {
        Some(bit) if least <= bit => Ok(bit),
        _ => Err(Fault::Unknown),
    }
}

// The bit of the source with this name.
fn bit_of(name: &[u8]) -> Option<u32>
    ensures bit { result ≡ bit_of name.now }
{
    if name == b"none".as_slice() {
        Some(NONE)
    } else if name == b"now".as_slice() {
        Some(NOW)
    } else if name == b"follow".as_slice() {
        Some(FOLLOW)
    } else if name == b"time".as_slice() {
        Some(TIME)
    } else if name == b"timer".as_slice() {
        Some(TIMER)
    } else if name == b"count".as_slice() {
        Some(COUNT)
    } else if name == b"ext".as_slice() {
        Some(EXT)
    } else if name == b"int".as_slice() {
        Some(INT)
    } else if name == b"other".as_slice() {
        Some(OTHER)
    } else {
        None
    }
}

/// No word.
pub fn none(words: &[&[u8]]) -> Result<(), Fault>
    ensures { seen (λ w. tt) result ≡ no_words (map (λ word. word.now) words.now) }
{
    match words {
        [] => Ok(()),
        _ => Err(Fault::BadLine),
    }
}

/// The one word.
pub fn one<'a>(words: &[&'a [u8]]) -> Result<&'a [u8], Fault>
    ensures { seen (λ w. w.now) result ≡ one_word (map (λ word. word.now) words.now) }
{
    match words {
        [v] => Ok(v),
        _ => Err(Fault::BadLine),
    }
}

/// The two words.
pub fn two<'a>(words: &[&'a [u8]]) -> Result<(&'a [u8], &'a [u8]), Fault>
    ensures { seen (λ w. (w.0.now, w.1.now)) result ≡ two_words (map (λ word. word.now) words.now) }
{
    match words {
        [v, w] => Ok((v, w)),
        _ => Err(Fault::BadLine),
    }
}

/// The three words.
pub fn three<'a>(words: &[&'a [u8]]) -> Result<(&'a [u8], &'a [u8], &'a [u8]), Fault>
    ensures { seen (λ w. (w.0.now, w.1.now, w.2.now)) result ≡ three_words (map (λ word. word.now) words.now) }
{
    match words {
        [v, w, x] => Ok((v, w, x)),
        _ => Err(Fault::BadLine),
    }
}

/// The four words.
pub fn four<'a>(words: &[&'a [u8]]) -> Result<(&'a [u8], &'a [u8], &'a [u8], &'a [u8]), Fault>
    ensures { seen (λ w. (w.0.now, w.1.now, w.2.now, w.3.now)) result ≡ four_words (map (λ word. word.now) words.now) }
{
    match words {
        [v, w, x, y] => Ok((v, w, x, y)),
        _ => Err(Fault::BadLine),
    }
}

/// The first word, and at least one after it.
pub fn one_and_more<'a, 'b>(words: &'b [&'a [u8]]) -> Result<(&'a [u8], &'b [&'a [u8]]), Fault>
    ensures value { seen (λ w. (w.0.now, map (λ word. word.now) w.1.now)) result ≡ one_and_more (map (λ word. word.now) words.now) }
    ensures some { IfOk result (λ w. 1 ≤ length w.1.now) }
{
    match words {
        [v, more @ ..] => {
            if more.is_empty() {
                Err(Fault::BadLine)
            } else {
                Ok((v, more))
            }
        }
        _ => Err(Fault::BadLine),
    }
}

/// The first two words, and at least one after them.
pub fn two_and_more<'a, 'b>(
    words: &'b [&'a [u8]],
) -> Result<(&'a [u8], &'a [u8], &'b [&'a [u8]]), Fault>
    ensures value { seen (λ w. (w.0.now, w.1.now, map (λ word. word.now) w.2.now)) result ≡ two_and_more (map (λ word. word.now) words.now) }
    ensures some { IfOk result (λ w. 1 ≤ length w.2.now) }
{
    match words {
        [v, rest @ ..] => {
            let (w, more) = one_and_more(rest)?;
            Ok((v, w, more))
        }
        _ => Err(Fault::BadLine),
    }
}

/// The first three words, and those after them.
pub fn three_and_more<'a, 'b>(
    words: &'b [&'a [u8]],
) -> Result<(&'a [u8], &'a [u8], &'a [u8], &'b [&'a [u8]]), Fault>
    ensures { seen (λ w. (w.0.now, w.1.now, w.2.now, map (λ word. word.now) w.3.now)) result ≡ three_and_more (map (λ word. word.now) words.now) }
{
    match words {
        [v, w, x, more @ ..] => Ok((v, w, x, more)),
        _ => Err(Fault::BadLine),
    }
}

/// A line's fault as the reason to stop.
pub fn at_line<T>(line: u32, read: Result<T, Fault>) -> Result<T, ReadStop>
    ensures { Gives (λ x. x) result (at_line line read) }
{
    match read {
        Ok(value) => Ok(value),
        Err(cause) => Err(ReadStop::Refused(Refused { line, cause })),
    }
}

/// Times of at most 18 digits, none above `most`, of the line with this number.
pub fn times_in(alloc: Global, line: u32, words: &[&[u8]], most: u64) -> Result<Vec<u64>, ReadStop>
    ensures { Gives (λ times. times.items) result (at_line line (each_word (number_in 0 most) [] (map (λ word. word.now) words.now))) }
{
    let mut times = Vec::with_capacity(alloc, words.len())?;
    for word in words {
        let time = at_line(line, time_in(word, 0, most))?;
        times.push(time)?;
    }
    Ok(times)
}

/// At most `count` numbers of 32 bits of the line with this number.
pub fn numbers(
    alloc: Global,
    line: u32,
    words: &[&[u8]],
    count: usize,
) -> Result<Vec<u32>, ReadStop>
    ensures { Gives (λ numbers. numbers.items) result (at_line line (values count (number_in 0 4294967295) [] (map (λ word. word.now) words.now))) }
{
    let mut numbers = Vec::new(alloc);
    for word in words {
        let number = at_line(line, number_after(numbers.len(), word, count))?;
        numbers.push(number)?;
    }
    Ok(numbers)
}

// A number of 32 bits after others, of which at most `count` may stand.
fn number_after(before: usize, word: &[u8], count: usize) -> Result<u32, Fault>
    ensures { result ≡ up_to count (number_in 0 4294967295) before word.now }
{
    if before < count {
        number_in(word, 0, u32::MAX)
    } else {
        Err(Fault::Limit)
    }
}

/// At most `count` signed numbers of the line with this number.
pub fn signed_numbers(
    alloc: Global,
    line: u32,
    words: &[&[u8]],
    count: usize,
) -> Result<Vec<i32>, ReadStop>
    ensures { Gives (λ numbers. numbers.items) result (at_line line (values count signed_number [] (map (λ word. word.now) words.now))) }
{
    let mut numbers = Vec::new(alloc);
    for word in words {
        let number = at_line(line, signed_after(numbers.len(), word, count))?;
        numbers.push(number)?;
    }
    Ok(numbers)
}

// A signed number after others, of which at most `count` may stand.
fn signed_after(before: usize, word: &[u8], count: usize) -> Result<i32, Fault>
    ensures { result ≡ up_to count signed_number before word.now }
{
    if before < count {
        signed_number(word)
    } else {
        Err(Fault::Limit)
    }
}
