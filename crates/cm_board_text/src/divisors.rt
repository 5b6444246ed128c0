// What a counter can divide by, as a word: read, and written.
ghost use Rattle.std.specs.Prelude.{◌≡◌, ◌+◌, ◌≤◌, ◌==◌, ◌++◌, ◌∷◌, [], decimal, flat_map, length, map, IfOk, IfSome, OnOk};
ghost use Rattle.std.specs.List.{slice_split};
ghost use Rattle.cm_base.specs.ReadStop.{Gives};
ghost use Rattle.cm_base.specs.Reading.{at_line};
ghost use Rattle.cm_base.specs.Words.{up_to, values};
ghost use Rattle.cm_board_text.specs.DivisorsText.{divisor_of, divisors_text, divisors_word, list_text, listed_of, points_from, span_of};

use cm_base::faults::{Fault, ReadStop};
use cm_base::lists::Nums;
use cm_base::numbers::put_u64;
use cm_base::transfer::NoMemory;
use cm_base::words::{at_line, number_in};
use cm_board::board::Divisors;
use std::alloc::{AllocError, Global};

/// What a word of the line with this number says: all numbers from one to another, with two points
/// between them, or those of a list with commas between them.
#[tactic(auto, unfolding(crate::specs::DivisorsText::divisors_word))]
pub(crate) fn read_divisors(alloc: Global, line: u32, word: &[u8]) -> Result<Divisors, ReadStop>
    ensures { Gives (λ divisors. divisors) result (at_line line (divisors_word word.now)) }
{
    match points_at(word) {
        Some(at) => at_line(line, read_span(&word[..at], &word[at + 2..])),
        None => read_list(alloc, line, word),
    }
}

// The place of the first two points.
fn points_at(word: &[u8]) -> Option<usize>
    ensures place { result ≡ points_from 0 word.now }
    ensures within { IfSome result (λ at. at + 2 ≤ length word.now) }
{
    for at in 0..word.len() {
        if word[at..].starts_with(b"..") {
            return Some(at);
        }
    }
    None
}

// All numbers from one to another.
fn read_span(first: &[u8], last: &[u8]) -> Result<Divisors, Fault>
    ensures { result ≡ span_of first.now last.now }
{
    if points_at(last).is_some() {
        return Err(Fault::BadLine);
    }
    let first = read_divisor(first)?;
    let last = read_divisor(last)?;
    Ok(Divisors::Span(first, last))
}

// A number that a counter can divide by.
fn read_divisor(word: &[u8]) -> Result<u32, Fault>
    ensures { result ≡ divisor_of word.now }
{
    number_in(word, 1, 16_777_216)
}

// The numbers of a list.
fn read_list(alloc: Global, line: u32, word: &[u8]) -> Result<Divisors, ReadStop>
    ensures { Gives (λ divisors. divisors) result (at_line line (listed_of word.now)) }
{
    let parts = parts(alloc, word)?;
    let list = read_numbers(alloc, line, &parts)?;
    Ok(Divisors::Listed(Nums::new(list)))
}

// The parts of a word with commas between them.
fn parts<'a>(alloc: Global, word: &'a [u8]) -> Result<Vec<&'a [u8]>, AllocError>
    ensures { IfOk result (λ parts. map (λ part. part.now) parts.items ≡ slice_split (λ c. c == 44) word.now) }
{
    word.split(|byte| *byte == b',').collect(alloc)
}

// At most 32 numbers.
fn read_numbers(alloc: Global, line: u32, words: &[&[u8]]) -> Result<Vec<u32>, ReadStop>
    ensures { Gives (λ numbers. numbers.items) result (at_line line (values 32 divisor_of [] (map (λ word. word.now) words.now))) }
{
    let mut numbers = Vec::new(alloc);
    for word in words {
        let number = at_line(line, divisor_after(numbers.len(), word))?;
        numbers.push(number)?;
    }
    Ok(numbers)
}

// A number after others, of which at most 32 may stand.
fn divisor_after(before: usize, word: &[u8]) -> Result<u32, Fault>
    ensures { result ≡ up_to 32 divisor_of before word.now }
{
    if before < 32 {
        read_divisor(word)
    } else {
        Err(Fault::Limit)
    }
}

/// Appends the word that says so. After an `Err` a part of the word may stand there.
pub(crate) fn put_divisors(out: &mut Vec<u8>, divisors: &Divisors) -> Result<(), NoMemory>
    ensures { OnOk result (out.new.items ≡ out.old.items ++ divisors_text divisors.now) }
{
    match divisors {
        Divisors::Span(first, last) => put_span(out, *first, *last),
        Divisors::Listed(list) => put_list(out, list.as_slice()),
    }
}

// Two numbers with two points between them.
fn put_span(out: &mut Vec<u8>, first: u32, last: u32) -> Result<(), NoMemory>
    ensures { OnOk result (out.new.items ≡ out.old.items ++ decimal first ++ 46 ∷ 46 ∷ decimal last) }
{
    put_u64(out, first as u64)?;
    out.extend_from_slice(b"..")?;
    put_u64(out, last as u64)
}

// Numbers with commas between them.
fn put_list(out: &mut Vec<u8>, list: &[u32]) -> Result<(), NoMemory>
    ensures { OnOk result (out.new.items ≡ out.old.items ++ list_text list.now) }
{
    match list {
        [] => Ok(()),
        [first, more @ ..] => put_numbers(out, *first, more),
    }
}

// A number and more with commas between them.
fn put_numbers(out: &mut Vec<u8>, first: u32, more: &[u32]) -> Result<(), NoMemory>
    ensures { OnOk result (out.new.items ≡ out.old.items ++ list_text (first ∷ more.now)) }
{
    put_u64(out, first as u64)?;
    put_more(out, more)
}

// Numbers, each after a comma.
fn put_more(out: &mut Vec<u8>, list: &[u32]) -> Result<(), NoMemory>
    ensures { OnOk result (out.new.items ≡ out.old.items ++ flat_map (λ n. 44 ∷ decimal n) list.now) }
{
    for number in list {
        out.push(b',')?;
        put_u64(out, *number as u64)?;
    }
    Ok(())
}
