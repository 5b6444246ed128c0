// Commands, read from words.
ghost use Rattle.std.specs.Prelude.{◌≡◌, [], drop, map, Ok, IfOk, IfSome};
ghost use Rattle.std.specs.List.{slice_split};
ghost use Rattle.cm_base.specs.LineView.{line_view};
ghost use Rattle.cm_base.specs.Reading.{at_line};
ghost use Rattle.cm_base.specs.ReadStop.{Gives};
ghost use Rattle.cm_base.specs.Stops.{is_byte};
ghost use Rattle.cm_base.specs.Words.{up_to, values};
ghost use Rattle.cm_cmd.specs.CommandText as spec;
ghost use Rattle.cm_cmd.specs.ListText as lists;
ghost use Rattle.cm_cmd.specs.PrintedReads.{HasText};

use crate::command::{Cmd, Trig};
use crate::entry::pack;
use crate::separated::{before, three_parts, two_parts};
use cm_base::faults::{Fault, ReadStop};
use cm_base::lanes::first_byte;
use cm_base::lines::Line;
use cm_base::words::{after, at_line, number_in, source_of};
use std::alloc::Global;

// The longest channel list where the board has no limit of its own.
const MOST_ENTRIES: usize = 256;

/// The command that the words of a line say, from word `from` (counted from 0) to the line's end:
/// subdevice, flags, five triggers and channel list, of at most 256 entries. It is refused where
/// there are not eight words, and at the first word that does not say its part.
pub fn read_cmd(alloc: Global, line: &Line<'_>, from: usize) -> Result<Cmd, ReadStop>
    ensures read { Gives (λ cmd. cmd) result (at_line line.now.number (spec.command_of 256 (drop from (line_view line.now).words))) }
    ensures text { IfOk result (λ cmd. HasText 256 cmd) }
{
    read_cmd_up_to(alloc, line, from, MOST_ENTRIES)
}

/// The same with a list of at most `most` entries.
pub fn read_cmd_up_to(
    alloc: Global,
    line: &Line<'_>,
    from: usize,
    most: usize,
) -> Result<Cmd, ReadStop>
    ensures read { Gives (λ cmd. cmd) result (at_line line.now.number (spec.command_of most (drop from (line_view line.now).words))) }
    ensures text { IfOk result (λ cmd. HasText most cmd) }
{
    read_words(alloc, line.number, words_from(line, from), most)
}

// The words of a line from this one on.
fn words_from<'a>(line: &'a Line<'_>, from: usize) -> &'a [&'a [u8]]
    ensures { map (λ word. word.now) result.now ≡ drop from (line_view line.now).words }
{
    let from = from.min(line.words.len());
    &line.words[from..]
}

// The command that eight words say.
fn read_words(alloc: Global, line: u32, words: &[&[u8]], most: usize) -> Result<Cmd, ReadStop>
    ensures { Gives (λ cmd. cmd) result (at_line line (spec.command_of most (map (λ word. word.now) words.now))) }
{
    match words {
        [sub, flags, start, scan_begin, convert, scan_end, stop, list] => {
            let head = read_head(
                alloc, sub, flags, start, scan_begin, convert, scan_end, stop,
            );
            read_with_list(alloc, line, head, list, most)
        }
        _ => at_line(line, Err(Fault::BadLine)),
    }
}

// A command without its list, with the list that a word says.
fn read_with_list(
    alloc: Global,
    line: u32,
    head: Result<Cmd, Fault>,
    list: &[u8],
    most: usize,
) -> Result<Cmd, ReadStop>
    ensures { Gives (λ cmd. cmd) result (at_line line (spec.with_list most head list.now)) }
{
    let mut cmd = at_line(line, head)?;
    cmd.list = read_list(alloc, line, list, most)?;
    Ok(cmd)
}

// The command that these words say, without its list.
#[tactic(auto, unfolding(crate::specs::CommandText::head_of))]
fn read_head(
    alloc: Global,
    sub: &[u8],
    flags: &[u8],
    start: &[u8],
    scan_begin: &[u8],
    convert: &[u8],
    scan_end: &[u8],
    stop: &[u8],
) -> Result<Cmd, Fault>
    ensures { result ≡ spec.head_of sub.now flags.now start.now scan_begin.now convert.now scan_end.now stop.now }
{
    Ok(Cmd {
        sub: number_in(sub, 0, 255)?,
        flags: number_in(flags, 0, u32::MAX)?,
        start: read_trigger(start)?,
        scan_begin: read_trigger(scan_begin)?,
        convert: read_trigger(convert)?,
        scan_end: read_trigger(scan_end)?,
        stop: read_trigger(stop)?,
        list: Vec::new(alloc),
    })
}

// A source and its argument, with a colon between them.
fn read_trigger(text: &[u8]) -> Result<Trig, Fault>
    ensures { result ≡ spec.trigger_of text.now }
{
    match trigger_cut_once(text) {
        Some(trigger) => Ok(trigger),
        None => read_parts(text),
    }
}

// The trigger that a text says, cut at its first colon: where what follows is a number, there is no
// other one.
fn trigger_cut_once(text: &[u8]) -> Option<Trig>
    ensures { IfSome result (λ trigger. spec.trigger_of text.now ≡ Ok trigger) }
{
    let Some(at) = first_byte(text, b':') else {
        return None;
    };
    let Ok(src) = source_of(before(text, at)) else {
        return None;
    };
    let Ok(arg) = number_in(after(text, at), 0, u32::MAX) else {
        return None;
    };
    Some(Trig { src, arg })
}

// The trigger that a text says, or the first of its faults.
#[tactic(auto, unfolding(crate::specs::CommandText::trigger_of))]
#[inline(never)]
fn read_parts(text: &[u8]) -> Result<Trig, Fault>
    ensures { result ≡ spec.trigger_of text.now }
{
    let (source, argument) = two_parts(text, b':')?;
    let src = source_of(source)?;
    let arg = number_in(argument, 0, u32::MAX)?;
    Ok(Trig { src, arg })
}

// The entries with commas between them, and a dash for none.
#[tactic(auto, unfolding(crate::specs::ListText::list_of))]
fn read_list(alloc: Global, line: u32, text: &[u8], most: usize) -> Result<Vec<u32>, ReadStop>
    ensures { Gives (λ list. list.items) result (at_line line (lists.list_of most text.now)) }
{
    if text == b"-".as_slice() {
        Ok(Vec::new(alloc))
    } else {
        read_entries(alloc, line, text, most)
    }
}

// The entries with commas between them.
fn read_entries(alloc: Global, line: u32, text: &[u8], most: usize) -> Result<Vec<u32>, ReadStop>
    ensures { Gives (λ list. list.items) result (at_line line (values most lists.entry_of [] (slice_split (is_byte 44) text.now))) }
{
    let mut list = Vec::new(alloc);
    let mut rest = text;
    while let Some(at) = first_byte(rest, b',') {
        push_entry(&mut list, line, before(rest, at), most)?;
        rest = after(rest, at);
    }
    push_entry(&mut list, line, rest, most)?;
    Ok(list)
}

// Adds the entry that a text says, where there is room for one more.
fn push_entry(list: &mut Vec<u32>, line: u32, text: &[u8], most: usize) -> Result<(), ReadStop>
    ensures { Gives (λ done. list.new.items) result (at_line line (lists.with_entry most list.old.items text.now)) }
{
    let entry = at_line(line, read_next_entry(list.len(), text, most))?;
    list.push(entry)?;
    Ok(())
}

// The entry that a text says after others.
fn read_next_entry(before: usize, text: &[u8], most: usize) -> Result<u32, Fault>
    ensures { result ≡ up_to most lists.entry_of before text.now }
{
    if before < most {
        read_entry(text)
    } else {
        Err(Fault::Limit)
    }
}

/// The list entry that a word says: a channel, a range and a reference, with slashes between them.
pub fn read_entry(text: &[u8]) -> Result<u32, Fault>
    ensures { result ≡ lists.entry_of text.now }
{
    match entry_cut_twice(text) {
        Some(entry) => Ok(entry),
        None => read_three(text),
    }
}

// The list entry that a text says, cut at its first two slashes: a reference has none.
fn entry_cut_twice(text: &[u8]) -> Option<u32>
    ensures { IfSome result (λ entry. lists.entry_of text.now ≡ Ok entry) }
{
    let Some(first) = first_byte(text, b'/') else {
        return None;
    };
    let rest = after(text, first);
    let Some(second) = first_byte(rest, b'/') else {
        return None;
    };
    let Ok(chan) = number_in(before(text, first), 0, 65535) else {
        return None;
    };
    let Ok(range) = number_in(before(rest, second), 0, 255) else {
        return None;
    };
    let Ok(aref) = read_aref(after(rest, second)) else {
        return None;
    };
    Some(pack(chan, range, aref))
}

// The list entry that a text says, or the first of its faults.
#[tactic(auto, unfolding(crate::specs::ListText::entry_of))]
#[inline(never)]
fn read_three(text: &[u8]) -> Result<u32, Fault>
    ensures { result ≡ lists.entry_of text.now }
{
    let (chan, range, aref) = three_parts(text, b'/')?;
    let chan = number_in(chan, 0, 65535)?;
    let range = number_in(range, 0, 255)?;
    let aref = read_aref(aref)?;
    Ok(pack(chan, range, aref))
}

// The number of a reference.
#[tactic(auto, unfolding(crate::specs::ListText::aref_of))]
fn read_aref(word: &[u8]) -> Result<u32, Fault>
    ensures { result ≡ lists.aref_of word.now }
{
    if word == b"ground".as_slice() {
        Ok(0)
    } else if word == b"common".as_slice() {
        Ok(1)
    } else if word == b"diff".as_slice() {
        Ok(2)
    } else if word == b"other".as_slice() {
        Ok(3)
    } else {
        Err(Fault::Unknown)
    }
}
