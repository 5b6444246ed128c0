// Lines that are kept for the next samples of their list entries.
ghost use Rattle.std.specs.Prelude.{◌≡◌, ℕ, ◌+◌, ◌<◌, ◌≤◌, ◌++◌, length, replicate, take, slice_index, IfOk, OnOk};
ghost use Rattle.cm_text.specs.Kept.{AreKept, IsKept};
ghost use Rattle.cm_text.specs.Format.{IsSample, sample_line, sample_lines};

use crate::gathered::{Gathered, ShortLine};
use crate::line_format::LineFormat;
use cm_base::prover::shows;
use cm_base::transfer::NoMemory;
use cm_sample::rule::next_index;
use std::alloc::Global;

/// The last line that was made for a list entry, and its word, where the line is a short one. Many
/// signals change so slowly that the next sample of the entry has the same line.
#[derive(Drop)]
pub(crate) struct KeptLine {
    word: Option<u32>,
    line: ShortLine,
    // Where the entry's lines are made.
    made: Vec<u8>,
}

/// No line yet, for each list entry.
pub(crate) fn none_kept(alloc: Global, format: &LineFormat<'_>) -> Result<Vec<KeptLine>, NoMemory>
    ensures { IfOk result (λ lines. AreKept format.now lines.items) }
{
    let mut lines = Vec::new(alloc);
    for i in 0..format.entries() {
        lines.push(KeptLine {
            word: None,
            line: ShortLine::new(),
            made: Vec::new(alloc),
        })?;
    }
    Ok(lines)
}

// Makes the line of an entry's word, and keeps it where it is a short one.
fn renew(
    kept: &mut KeptLine,
    format: &LineFormat<'_>,
    index: usize,
    word: u32,
) -> Result<(), NoMemory>
    requires index { index < length format.now.list }
    requires code { IsSample format.now index word }
    ensures kept { IsKept format.now index kept.new }
    ensures made { OnOk result (kept.new.made.items ≡ sample_line format.now index word) }
{
    kept.word = None;
    kept.made.clear();
    format.put(&mut kept.made, index, word)?;
    if let Some(line) = ShortLine::of(&kept.made) {
        kept.line = line;
        kept.word = Some(word);
    }
    Ok(())
}

// Appends the line of an entry's word, which is made anew.
#[inline(never)]
fn put_new_line(
    text: &mut Vec<u8>,
    gathered: &mut Gathered,
    kept: &mut KeptLine,
    format: &LineFormat<'_>,
    index: usize,
    word: u32,
) -> Result<(), NoMemory>
    requires index { index < length format.now.list }
    requires code { IsSample format.now index word }
    ensures kept { IsKept format.now index kept.new }
    ensures line { OnOk result (text.new.items ++ gathered.new ≡ (text.old.items ++ gathered.old) ++ sample_line format.now index word) }
{
    renew(kept, format, index, word)?;
    if kept.word == Some(word) {
        gathered.add(text, &kept.line)
    } else {
        gathered.add_long(text, &kept.made)
    }
}

// Appends the line of an entry's word, which is made anew unless it is the one that is kept.
#[inline(always)]
fn put_kept_line(
    text: &mut Vec<u8>,
    gathered: &mut Gathered,
    kept: &mut [KeptLine],
    format: &LineFormat<'_>,
    index: usize,
    word: u32,
) -> Result<(), NoMemory>
    requires index { index < length format.now.list }
    requires code { IsSample format.now index word }
    requires kept { AreKept format.now kept.old }
    ensures kept { AreKept format.now kept.new }
    ensures line { OnOk result (text.new.items ++ gathered.new ≡ (text.old.items ++ gathered.old) ++ sample_line format.now index word) }
{
    let own = &mut kept[index];
    if own.word == Some(word) {
        gathered.add(text, &own.line)
    } else {
        put_new_line(text, gathered, own, format, index, word)
    }
}

// How many of the first words are this one.
#[inline(always)]
fn count_alike(words: &[u32], word: u32) -> usize
    ensures within { result ≤ length words.now }
    ensures alike { take result words.now ≡ replicate result word }
{
    let mut count = 0;
    while count < words.len() && words[count] == word {
        count += 1;
    }
    count
}

// Appends the line of a command's first word, which has one list entry, and that of as many words after
// it as have the same line where it is kept. Reports how many.
#[inline(always)]
fn put_alike(
    text: &mut Vec<u8>,
    gathered: &mut Gathered,
    kept: &mut [KeptLine],
    format: &LineFormat<'_>,
    words: &[u32],
) -> Result<usize, NoMemory>
    requires alone { length format.now.list ≡ 1 }
    requires some { 1 ≤ length words.now }
    requires code { IsSample format.now 0 (slice_index words.now 0) }
    requires kept { AreKept format.now kept.old }
    ensures kept { AreKept format.now kept.new }
    ensures some { IfOk result (λ count. 1 ≤ count) }
    ensures within { IfOk result (λ count. count ≤ length words.now) }
    ensures lines { IfOk result (λ count. text.new.items ++ gathered.new ≡ (text.old.items ++ gathered.old) ++ sample_lines format.now 0 (take count words.now)) }
{
    put_kept_line(text, gathered, kept, format, 0, words[0])?;
    let own = &kept[0];
    let Some(word) = own.word else {
        return Ok(1);
    };
    let more = count_alike(&words[1..], word);
    gathered.add_times(text, &own.line, more)?;
    Ok(1 + more)
}

// Appends the lines of the samples of a command that has one list entry. Those of words that are the same
// one after another are made together.
fn put_alone(
    text: &mut Vec<u8>,
    kept: &mut [KeptLine],
    format: &LineFormat<'_>,
    place: u64,
    words: &[u32],
) -> Result<(), NoMemory>
    requires alone { length format.now.list ≡ 1 }
    requires codes { (i : ℕ) → i < length words.now → IsSample format.now (place + i) (slice_index words.now i) }
    requires kept { AreKept format.now kept.old }
    ensures kept { AreKept format.now kept.new }
    ensures lines { OnOk result (text.new.items ≡ text.old.items ++ sample_lines format.now place words.now) }
{
    // It is here for the contract alone: each place is of the same entry.
    shows(&place);
    let mut gathered = Gathered::new();
    let mut i = 0;
    while i < words.len() {
        i += put_alike(text, &mut gathered, kept, format, &words[i..])?;
    }
    gathered.append_to(text)
}

// Appends the lines of a command's samples, the first of which is that of a place, one after another.
fn put_in_turn(
    text: &mut Vec<u8>,
    kept: &mut [KeptLine],
    format: &LineFormat<'_>,
    place: u64,
    words: &[u32],
) -> Result<(), NoMemory>
    requires codes { (i : ℕ) → i < length words.now → IsSample format.now (place + i) (slice_index words.now i) }
    requires kept { AreKept format.now kept.old }
    ensures kept { AreKept format.now kept.new }
    ensures lines { OnOk result (text.new.items ≡ text.old.items ++ sample_lines format.now place words.now) }
{
    let entries = format.entries();
    let mut gathered = Gathered::new();
    let mut index = (place % entries as u64) as usize;
    for i in 0..words.len() {
        put_kept_line(text, &mut gathered, kept, format, index, words[i])?;
        index = next_index(index, entries);
    }
    gathered.append_to(text)
}

/// Appends the lines of a command's samples, the first of which is that of a place, by way of the lines
/// that are kept.
#[inline(never)]
pub(crate) fn put_kept(
    text: &mut Vec<u8>,
    kept: &mut [KeptLine],
    format: &LineFormat<'_>,
    place: u64,
    words: &[u32],
) -> Result<(), NoMemory>
    requires codes { (i : ℕ) → i < length words.now → IsSample format.now (place + i) (slice_index words.now i) }
    requires kept { AreKept format.now kept.old }
    ensures kept { AreKept format.now kept.new }
    ensures lines { OnOk result (text.new.items ≡ text.old.items ++ sample_lines format.now place words.now) }
{
    if words.is_empty() {
        return Ok(());
    }
    if format.entries() == 1 {
        put_alone(text, kept, format, place, words)
    } else {
        put_in_turn(text, kept, format, place, words)
    }
}
