// The board part of a text, read into a board.
ghost use Rattle.std.specs.Prelude.{◌≡◌, ◌<◌, ◌≤◌, ◌∷◌, IfOk, IsTrue, Ok, true, codes, drop, length, map};
ghost use Rattle.std.specs.List.{list_all, position_or_len};
ghost use Rattle.cm_base.specs.Refusal.{next_number};
ghost use Rattle.cm_base.specs.LineView.{line_view};
ghost use Rattle.cm_base.specs.ReadStop.{Gives};
ghost use Rattle.cm_base.specs.Reading.{at_line, read_each, seen};
ghost use Rattle.cm_board_text.specs.Block.{checked};
ghost use Rattle.cm_base.specs.Parts as parts;
ghost use Rattle.cm_board_text.specs.BoardPart.{block_at, block_lines, blocks_from, is_between, is_part_end, lines_after, next_block, board_of, any_words, ends_block, head_after, begins_wide, is_name, is_signals, name_words, version_of, version_words, whole_lines, wide_words};
ghost use Rattle.cm_board.specs.Board.{IsSoundBoard, has_channels};
ghost use Rattle.cm_board.specs.BoardTable.{board_table};
ghost use Rattle.cm_board.specs.Kept.{IsWhole};
ghost use Rattle.cm_board.specs.Said.{sub_of};
ghost use Rattle.cm_base.specs.Lines.{is_word};

use crate::heads::read_head;
use crate::lines::read_items;
use crate::said::describe_sub;
use crate::whole::complete;
use cm_base::faults::{Fault, ReadStop};
use cm_base::lines::{Line, Lines};
use cm_base::parts::{after_key, begins, fixed, refused};
use cm_base::words::{at_line, number_in, one};
use cm_board::board::{BoardDesc, Sub};
use cm_board::items::Item;
use cm_board::lines::board_table;
use cm_board::table::Head;
use std::alloc::{AllocError, Global};

// Whether the line ends the block before it.
fn ends_block(line: &Line<'_>) -> bool
    ensures { result ≡ ends_block (line_view line.now) }
{
    begins(b"subdevice", line) || begins(b"signals", line)
}

// How many lines a block has after its head.
fn block_len(lines: &[Line<'_>]) -> usize
    ensures value { result ≡ position_or_len ends_block (map line_view lines.now) }
    ensures within { result ≤ length lines.now }
{
    let mut count = 0;
    for line in lines {
        if ends_block(line) {
            return count;
        }
        count += 1;
    }
    count
}

// The number of the line at which something is missing.
fn next_number(lines: &[Line<'_>], end: u32) -> u32
    ensures { result ≡ next_number end (map line_view lines.now) }
{
    match lines {
        [] => end,
        [line, ..] => line.number,
    }
}

// The head of a block, where at most 16 stand before it.
fn head_after(version: u32, count: usize, line: &Line<'_>) -> Result<Head, Fault>
    ensures { result ≡ head_after version count (line_view line.now) }
{
    let words = line.words.as_slice();
    let head = read_head(version, after_key(words))?;
    if count < 16 {
        Ok(head)
    } else {
        Err(Fault::Limit)
    }
}

// The lines of a block after its head, and those after the block.
fn cut_block<'a, 'b>(lines: &'a [Line<'b>]) -> (&'a [Line<'b>], &'a [Line<'b>])
    ensures inside { map line_view result.0.now ≡ block_lines (map line_view lines.now) }
    ensures after { map line_view result.1.now ≡ lines_after (map line_view lines.now) }
    ensures shorter { length result.1.now ≤ length lines.now }
{
    lines.split_at(block_len(lines))
}

// The subdevice that a head and the lines after it describe, with `count` blocks before and the line `stop` after.
fn read_block(
    alloc: Global,
    version: u32,
    stop: u32,
    count: usize,
    head: &Line<'_>,
    inside: &[Line<'_>],
) -> Result<Sub, ReadStop>
    requires { 1 ≤ version }
    ensures { Gives (λ sub. sub) result (block_at version stop count (line_view head.now) (map line_view inside.now)) }
{
    let line = head.number;
    let head = at_line(line, head_after(version, count, head))?;
    let all = whole_block(alloc, stop, &head, inside)?;
    finish(alloc, stop, &head, all)
}

// The lines of a block after its head, and those that hold without standing there, with the line `stop` after it.
fn whole_block(
    alloc: Global,
    stop: u32,
    head: &Head,
    inside: &[Line<'_>],
) -> Result<Vec<Item>, ReadStop>
    ensures { Gives (λ all. all.items) result (whole_lines stop head.now (map line_view inside.now)) }
{
    let table = board_table();
    let lines = read_items(alloc, &table, head, inside)?;
    at_line(stop, complete(alloc, &table, head, &lines)?)
}

// The subdevice that the lines of a whole block describe, where it keeps the rules over them.
fn finish(alloc: Global, stop: u32, head: &Head, all: Vec<Item>) -> Result<Sub, ReadStop>
    requires whole { IsWhole board_table head.now all.items }
    requires channels { IsTrue (has_channels head.now.version head.now.kind head.now.channels) }
    requires version { 1 ≤ head.now.version }
    ensures { Gives (λ sub. sub) result (at_line stop (checked (sub_of head.now all.items))) }
{
    let sub = describe_sub(alloc, head, all)?;
    if sub.is_board_ok() {
        Ok(sub.into_sub())
    } else {
        Err(refused(stop, Fault::Bad))
    }
}

// Whether no block stands at the start of these lines.
fn is_part_end(lines: &[Line<'_>]) -> bool
    ensures { result ≡ is_part_end (map line_view lines.now) }
{
    match lines {
        [] => true,
        [line, ..] => begins(b"signals", line),
    }
}

// The subdevices of the blocks up to the `signals` line.
fn read_blocks(
    alloc: Global,
    version: u32,
    lines: &[Line<'_>],
    end: u32,
) -> Result<Vec<Sub>, ReadStop>
    requires lines { IsTrue (is_between (map line_view lines.now)) }
    requires version { 1 ≤ version }
    ensures { Gives (λ subs. subs.items) result (blocks_from version end 0 (map line_view lines.now)) }
{
    let mut subs = Vec::new(alloc);
    let mut at = 0;
    while !is_part_end(lines_from(lines, at)) {
        let after = lines_from(lines, at + 1);
        let inside = block_len(after);
        let sub = match next_sub(alloc, version, subs.len(), &lines[at], after, end) {
            Ok(sub) => sub,
            Err(stop) => return Err(stop),
        };
        subs.push(sub)?;
        at += 1 + inside;
    }
    if at == lines.len() {
        return Err(refused(end, Fault::Missing));
    }
    Ok(subs)
}

// The subdevice that a block with this head describes, with `count` blocks before it.
fn next_sub(
    alloc: Global,
    version: u32,
    count: usize,
    head: &Line<'_>,
    after: &[Line<'_>],
    end: u32,
) -> Result<Sub, ReadStop>
    requires { 1 ≤ version }
    ensures { Gives (λ sub. sub) result (next_block version end count (line_view head.now) (map line_view after.now)) }
{
    let (inside, others) = cut_block(after);
    read_block(
        alloc,
        version,
        next_number(others, end),
        count,
        head,
        inside,
    )
}

/// Reads the board part of a text, from its first line on, and reports the place of the `signals`
/// line among the lines. It stops at the first line that fails, with the line's number and the
/// cause, or where memory runs out. Its time is linear in the text. Of the lines it keeps those up
/// to the `signals` line while it reads, and after that no memory but the board's (Comedi: what a
/// driver's `attach` sets up).
pub fn read_board(alloc: Global, lines: &Lines<'_>) -> Result<(BoardDesc, usize), ReadStop>
    ensures value { Gives (λ r. (r.0, r.1)) result (board_of lines.now.end lines.now.list) }
    ensures within { IfOk result (λ r. r.1 ≤ length lines.now.list) }
{
    let (list, place) = lines.through(alloc, b"signals")?;
    read_part(alloc, &list, lines.end(), place)
}

// The board that these lines describe up to the `signals` line, and that line's place.
fn read_part(
    alloc: Global,
    lines: &[Line<'_>],
    end: u32,
    place: usize,
) -> Result<(BoardDesc, usize), ReadStop>
    requires { place ≡ position_or_len is_signals (map line_view lines.now) }
    ensures value { Gives (λ r. (r.0, r.1)) result (board_of end (map line_view lines.now)) }
    ensures place { IfOk result (λ r. r.1 ≡ place) }
{
    let version = read_version(lines, end)?;
    let name = read_name(lines_from(lines, 1), end)?;
    let blocks = lines_from(lines, 2);
    begins_block(blocks, end)?;
    let subs = read_blocks(alloc, version, blocks, end)?;
    let board = describe(alloc, version, name, subs)?;
    Ok((board, place))
}

// The board of this version with this name and these subdevices.
fn describe(
    alloc: Global,
    version: u32,
    name: &[u8],
    subs: Vec<Sub>,
) -> Result<BoardDesc, AllocError>
    requires { IsSoundBoard (record { version = version; name = name.now; subs = subs.items }) }
    ensures { IfOk result (λ board. board ≡ record { version = version; name = name.now; subs = subs.items }) }
{
    Ok(BoardDesc {
        version,
        name: Vec::from_slice(alloc, name)?,
        subs,
    })
}

// The words after the one fixed word that may begin the first of these lines, and its number.
fn first<'a, 'b>(
    lines: &'a [Line<'b>],
    key: &[u8],
    end: u32,
) -> Result<(u32, &'a [&'b [u8]]), ReadStop>
    ensures value { Gives (λ r. (r.0, map (λ word. word.now) r.1.now)) result (parts.fixed_words end key.now (map line_view lines.now)) }
    ensures words { IfOk result (λ r. IsTrue (list_all (λ word. is_word word.now) r.1.now)) }
{
    match lines {
        [] => Err(refused(end, Fault::Missing)),
        [line, ..] => fixed(line, key),
    }
}

// The lines from a place on.
fn lines_from<'a, 'b>(lines: &'a [Line<'b>], at: usize) -> &'a [Line<'b>]
    ensures lines { result.now ≡ drop at lines.now }
    ensures views { map line_view result.now ≡ drop at (map line_view lines.now) }
{
    if at <= lines.len() { &lines[at..] } else { &[] }
}

// Whether the first of these lines is that of a wider text.
fn begins_wide(lines: &[Line<'_>]) -> bool
    ensures { result ≡ begins_wide (map line_view lines.now) }
{
    match lines {
        [] => false,
        [line, ..] => begins(b"zendrouz", line),
    }
}

// The version of the board part.
fn read_version(lines: &[Line<'_>], end: u32) -> Result<u32, ReadStop>
    ensures value { Gives (λ version. version) result (version_of end (map line_view lines.now)) }
    ensures limit { IfOk result (λ version. (1 ≤ version) × (version ≤ 3)) }
{
    if begins_wide(lines) {
        let (number, words) = first(lines, b"zendrouz", end)?;
        at_line(number, wide_version(words))
    } else {
        let (number, words) = first(lines, b"comedi", end)?;
        at_line(number, version(words))
    }
}

// The version after `comedi`.
fn version(words: &[&[u8]]) -> Result<u32, Fault>
    ensures value { result ≡ version_words (map (λ word. word.now) words.now) }
    ensures limit { IfOk result (λ version. (1 ≤ version) × (version ≤ 3)) }
{
    let version = one(words)?;
    number_in(version, 1, 2)
}

// The version after `zendrouz`: that has a version of its own, 1, and is the third of all.
fn wide_version(words: &[&[u8]]) -> Result<u32, Fault>
    ensures value { result ≡ wide_words (map (λ word. word.now) words.now) }
    ensures limit { IfOk result (λ version. (1 ≤ version) × (version ≤ 3)) }
{
    let version = one(words)?;
    Ok(number_in(version, 1, 1)? + 2)
}

// The board's name.
fn read_name<'a, 'b>(lines: &'a [Line<'b>], end: u32) -> Result<&'b [u8], ReadStop>
    ensures value { Gives (λ name. name.now) result (parts.fixed end (codes "board") name_words (map line_view lines.now)) }
    ensures word { IfOk result (λ name. IsTrue (is_name name.now)) }
{
    let (number, words) = first(lines, b"board", end)?;
    at_line(number, name(words))
}

fn name<'b>(words: &[&'b [u8]]) -> Result<&'b [u8], Fault>
    requires { IsTrue (list_all (λ word. is_word word.now) words.now) }
    ensures value { seen (λ name. name.now) result ≡ name_words (map (λ word. word.now) words.now) }
    ensures word { IfOk result (λ name. IsTrue (is_name name.now)) }
{
    let name = one(words)?;
    if name.len() <= 32 {
        Ok(name)
    } else {
        Err(Fault::Limit)
    }
}

// The first block begins at the third line.
fn begins_block(lines: &[Line<'_>], end: u32) -> Result<(), ReadStop>
    ensures { Gives (λ u. true) result (parts.fixed end (codes "subdevice") any_words (map line_view lines.now)) }
{
    first(lines, b"subdevice", end)?;
    Ok(())
}
