// What the words of a line ask, before its rules are asked.
ghost use Rattle.std.specs.Prelude.{◌≡◌, ◌≤◌, drop, length, map, IfOk};
ghost use Rattle.std.specs.List.{slice_split};
ghost use Rattle.cm_base.specs.LineView.{line_view};
ghost use Rattle.cm_base.specs.ReadStop.{Gives};
ghost use Rattle.cm_base.specs.Reading.{at_line, seen};
ghost use Rattle.cm_base.specs.Stops.{is_byte};
ghost use Rattle.cm_job.specs.Forms as spec;

use crate::head::{COMMAND, before_commands, read_command, word_at};
use crate::line::{Access, Mode};
use cm_base::faults::{Fault, ReadStop};
use cm_base::lines::Line;
use cm_base::lists::Times;
use cm_base::parts::after_key;
use cm_base::words::{at_line, time_in, times_in};
use cm_cmd::command::Cmd;
use cm_signal::bounds::Bounds;
use std::alloc::{AllocError, Global};

// The most samples that a client can ask for.
const MOST_TAKEN: u64 = 1_000_000;

// The greatest number of 18 digits, which each number has at most.
const ANY_NUMBER: u64 = 999_999_999_999_999_999;

/// What the words of a line ask.
#[derive(Drop)]
pub enum AskedLine {
    Go {
        mode: Mode,
        access: Access,
        t0: u64,
        take: Option<u64>,
        cmd: Cmd,
    },
    Drive {
        t0: u64,
        numbers: Times,
        cmd: Cmd,
    },
}

/// The session that a line stands in, which says what the line may ask.
#[derive(Clone, Copy)]
pub enum Session {
    /// It takes all that the forms of the lines say.
    Run,
    /// It takes lines that read an input paced and to the end of its samples, in scans that the
    /// subdevice's buffer holds.
    Watch,
}

/// The forms of lines by their first words.
#[derive(Clone, Copy)]
pub enum Key {
    Go,
    Drive,
}

/// What the words of a line ask, or the first fault of them from left to right.
pub(crate) fn read_asked(
    alloc: Global,
    bounds: Bounds,
    line: &Line<'_>,
) -> Result<AskedLine, ReadStop>
    ensures value { Gives (λ asked. asked) result (at_line line.now.number (spec.asked_of bounds (line_view line.now))) }
    ensures few { IfOk result (λ asked. length (spec.asked_cmd asked).list ≤ 1024) }
{
    match at_line(line.number, line_key(line))? {
        Key::Go => read_go(alloc, bounds, line),
        Key::Drive => read_drive(alloc, bounds, line),
    }
}

// The form of a line.
fn line_key(line: &Line<'_>) -> Result<Key, Fault>
    ensures { result ≡ spec.line_key (line_view line.now) }
{
    if line.bad {
        return Err(Fault::BadLine);
    }
    match line.words.as_slice() {
        [word, ..] => key_of(word),
        _ => Err(Fault::BadLine),
    }
}

// The form that a word names.
fn key_of(word: &[u8]) -> Result<Key, Fault>
    ensures { result ≡ spec.key_named word.now }
{
    if word == b"go".as_slice() {
        Ok(Key::Go)
    } else if word == b"drive".as_slice() {
        Ok(Key::Drive)
    } else {
        Err(Fault::Unknown)
    }
}

// What `go MODE READER CALL TAKE COMMAND` asks.
fn read_go(alloc: Global, bounds: Bounds, line: &Line<'_>) -> Result<AskedLine, ReadStop>
    ensures value { Gives (λ asked. asked) result (at_line line.now.number (spec.go_line bounds (line_view line.now))) }
    ensures few { IfOk result (λ asked. length (spec.asked_cmd asked).list ≤ 1024) }
{
    let (mode, access, t0, take) = at_line(
        line.number,
        go_head(bounds.horizon, after_key(line.words.as_slice())),
    )?;
    let cmd = read_command(alloc, bounds.version, line, 5)?;
    Ok(AskedLine::Go {
        mode,
        access,
        t0,
        take,
        cmd,
    })
}

// What stands between the key and the command of a `go` line.
fn go_head(horizon: u64, words: &[&[u8]]) -> Result<(Mode, Access, u64, Option<u64>), Fault>
    ensures { result ≡ spec.go_head horizon (map (λ word. word.now) words.now) }
{
    let words = before_commands(words, 4, COMMAND)?;
    let mode = mode_of(word_at(words, 0))?;
    let access = access_of(word_at(words, 1))?;
    let t0 = time_in(word_at(words, 2), 0, horizon)?;
    let take = take_of(word_at(words, 3))?;
    Ok((mode, access, t0, take))
}

// What the board does where the buffer is full.
fn mode_of(word: &[u8]) -> Result<Mode, Fault>
    ensures { result ≡ spec.mode_of word.now }
{
    if word == b"paced".as_slice() {
        Ok(Mode::Paced)
    } else if word == b"free".as_slice() {
        Ok(Mode::Free)
    } else {
        Err(Fault::Unknown)
    }
}

// How the client gets at the samples.
fn access_of(word: &[u8]) -> Result<Access, Fault>
    ensures { result ≡ spec.access_of word.now }
{
    if word == b"copy".as_slice() {
        Ok(Access::Copy)
    } else if word == b"map".as_slice() {
        Ok(Access::Map)
    } else {
        Err(Fault::Unknown)
    }
}

// How many samples the client takes: all, or up to a million.
fn take_of(word: &[u8]) -> Result<Option<u64>, Fault>
    ensures { result ≡ spec.take_of word.now }
{
    if word == b"all".as_slice() {
        Ok(None)
    } else {
        Ok(Some(time_in(word, 1, MOST_TAKEN)?))
    }
}

// What `drive CALL VALUES COMMAND` asks.
fn read_drive(alloc: Global, bounds: Bounds, line: &Line<'_>) -> Result<AskedLine, ReadStop>
    ensures value { Gives (λ asked. asked) result (at_line line.now.number (spec.drive_line bounds (line_view line.now))) }
    ensures few { IfOk result (λ asked. length (spec.asked_cmd asked).list ≤ 1024) }
{
    let (t0, values) = at_line(
        line.number,
        drive_head(bounds.horizon, after_key(line.words.as_slice())),
    )?;
    let numbers = read_numbers(alloc, line.number, values)?;
    let cmd = read_command(alloc, bounds.version, line, 3)?;
    Ok(AskedLine::Drive { t0, numbers, cmd })
}

// The time and the word of the values of a `drive` line.
fn drive_head<'a>(horizon: u64, words: &[&'a [u8]]) -> Result<(u64, &'a [u8]), Fault>
    ensures { seen (λ w. (w.0, w.1.now)) result ≡ spec.drive_head horizon (map (λ word. word.now) words.now) }
{
    let words = before_commands(words, 2, COMMAND)?;
    let t0 = time_in(word_at(words, 0), 0, horizon)?;
    Ok((t0, word_at(words, 1)))
}

// The numbers that a word says, with commas between them.
fn read_numbers(alloc: Global, line: u32, text: &[u8]) -> Result<Times, ReadStop>
    ensures { Gives (λ numbers. numbers) result (at_line line (spec.numbers_of text.now)) }
{
    let parts = parts_of(alloc, text)?;
    let numbers = times_in(alloc, line, &parts, ANY_NUMBER)?;
    Ok(Times::new(numbers))
}

// The parts of a word, with commas between them.
fn parts_of<'a>(alloc: Global, text: &'a [u8]) -> Result<Vec<&'a [u8]>, AllocError>
    ensures { IfOk result (λ parts. map (λ part. part.now) parts.items ≡ slice_split (is_byte 44) text.now) }
{
    text.split(|byte| *byte == b',').collect(alloc)
}
