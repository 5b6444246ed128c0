// What a line of the signals part says by itself.
ghost use Rattle.std.specs.Prelude.{◌≡◌, ◌<◌, ◌≤◌, ◌∷◌, ◌^◌, [], IfOk, Some, length, map, slice_get};
ghost use Rattle.cm_base.specs.Numbers.{number_of};
ghost use Rattle.cm_base.specs.Words.{or_fault};
ghost use Rattle.cm_base.specs.declared.faults.Fault.TheVariants as faults;
ghost use Rattle.cm_base.specs.LineView.{line_view};
ghost use Rattle.cm_base.specs.ReadStop.{Gives};
ghost use Rattle.cm_base.specs.Reading.{at_line};
ghost use Rattle.cm_signal.specs.Adding.{progression};
ghost use Rattle.cm_signal.specs.Fitting.{Fits};
ghost use Rattle.cm_signal.specs.Said.{IsSaid};
ghost use Rattle.cm_signal.specs.Channel as channel;
ghost use Rattle.cm_signal_text.specs.SignalsPart as spec;

use crate::wave_words::read_wave;
use cm_base::faults::{Fault, ReadStop};
use cm_base::lines::Line;
use cm_base::lists::Times;
use cm_base::numbers::read_u64;
use cm_base::parts::refused;
use cm_base::words::{
    at_line, four, number_below, number_in, one_and_more, three, time_in, times_in,
};
use cm_board::board::{BoardDesc, Sub};
use cm_board::versions::most_lines;
use cm_signal::signal_line::SignalLine;
use cm_signal::signals::{IntAt, Slope};
use cm_signal::wave::WaveAt;
use std::alloc::{AllocError, Global};

/// What a line says by itself, over a board and up to a horizon.
pub fn read_signal(
    alloc: Global,
    board: &BoardDesc,
    horizon: u64,
    line: &Line<'_>,
) -> Result<SignalLine, ReadStop>
    ensures value { Gives (λ said. said) result (at_line line.now.number (spec.said_line board.now horizon (line_view line.now))) }
    ensures limits { IfOk result (IsSaid horizon) }
    ensures fits { IfOk result (Fits board.now.subs) }
{
    let number = line.number;
    if line.bad {
        return Err(refused(number, Fault::BadLine));
    }
    match line.words.as_slice() {
        [] => Err(refused(number, Fault::BadLine)),
        [key, words @ ..] => read_words(alloc, number, board, horizon, key, words),
    }
}

// What the words after a key say.
fn read_words(
    alloc: Global,
    number: u32,
    board: &BoardDesc,
    horizon: u64,
    key: &[u8],
    words: &[&[u8]],
) -> Result<SignalLine, ReadStop>
    ensures value { Gives (λ said. said) result (at_line number (spec.said_words board.now horizon (key.now ∷ map (λ word. word.now) words.now))) }
    ensures limits { IfOk result (IsSaid horizon) }
    ensures fits { IfOk result (Fits board.now.subs) }
{
    if key == b"wave".as_slice() {
        read_wave(alloc, number, board, words)
    } else if key == b"edges".as_slice() {
        read_edges(alloc, number, Slope::Rise, board.version, horizon, words)
    } else if key == b"falls".as_slice() {
        read_edges(alloc, number, Slope::Fall, board.version, horizon, words)
    } else if key == b"every".as_slice() {
        read_every(alloc, number, board.version, words)
    } else if key == b"int".as_slice() {
        at_line(number, read_int(&board.subs, horizon, words))
    } else {
        Err(refused(number, Fault::Unknown))
    }
}

// `edges LINE T..` and `falls LINE T..`
fn read_edges(
    alloc: Global,
    number: u32,
    slope: Slope,
    version: u32,
    horizon: u64,
    words: &[&[u8]],
) -> Result<SignalLine, ReadStop>
    ensures value { Gives (λ said. said) result (at_line number (spec.edges_words slope version horizon (map (λ word. word.now) words.now))) }
    ensures limits { IfOk result (IsSaid 0) }
    ensures fits { IfOk result (Fits []) }
{
    let (line, times) = at_line(number, one_and_more(words))?;
    let line = at_line(number, read_line_number(version, line))?;
    let times = times_in(alloc, number, times, horizon)?;
    Ok(SignalLine::Edges(slope, line, Times::new(times)))
}

// `every LINE FIRST PERIOD COUNT`
fn read_every(
    alloc: Global,
    number: u32,
    version: u32,
    words: &[&[u8]],
) -> Result<SignalLine, ReadStop>
    ensures value { Gives (λ said. said) result (at_line number (spec.every_words version (map (λ word. word.now) words.now))) }
    ensures limits { IfOk result (IsSaid 0) }
    ensures fits { IfOk result (Fits []) }
{
    let (line, first, period, count) = at_line(number, read_numbers(version, words))?;
    let times = progression(alloc, first, period, count)?;
    Ok(SignalLine::Edges(Slope::Rise, line, Times::new(times)))
}

// The numbers of `every LINE FIRST PERIOD COUNT`.
fn read_numbers(version: u32, words: &[&[u8]]) -> Result<(u32, u64, u64, u32), Fault>
    ensures value { result ≡ spec.every_numbers version (map (λ word. word.now) words.now) }
    ensures limits { IfOk result (λ n. (n.0 < 64) × (n.1 < 10 ^ 18) × (n.2 ≤ 10 ^ 12) × (n.3 ≤ 100000)) }
{
    let (line, first, period, count) = four(words)?;
    let line = read_line_number(version, line)?;
    let first = read_first(first)?;
    let period = read_period(period)?;
    let count = number_in(count, 1, 100_000)?;
    Ok((line, first, period, count))
}

// Times that are a period apart.
fn progression(alloc: Global, first: u64, period: u64, count: u32) -> Result<Vec<u64>, AllocError>
    requires first { first < 10 ^ 18 }
    requires period { period ≤ 10 ^ 12 }
    requires count { count ≤ 100000 }
    ensures { IfOk result (λ times. times.items ≡ progression first period count) }
{
    let mut times = Vec::new(alloc);
    for index in 0..u64::from(count) {
        times.push(first + index * period)?;
    }
    Ok(times)
}

// `int SUB T ARG`
fn read_int(subs: &[Sub], horizon: u64, words: &[&[u8]]) -> Result<SignalLine, Fault>
    requires { length subs.now < 2 ^ 32 }
    ensures value { result ≡ spec.int_words subs.now horizon (map (λ word. word.now) words.now) }
    ensures limits { IfOk result (IsSaid horizon) }
    ensures fits { IfOk result (Fits subs.now) }
{
    let (sub, time, arg) = three(words)?;
    let sub = number_below(sub, subs.len() as u32)?;
    let time = time_in(time, 0, horizon)?;
    let arg = number_in(arg, 0, 4_294_967_295)?;
    Ok(SignalLine::Int(IntAt { sub, time, arg }))
}

// A channel with levels.
pub(crate) fn read_channel(subs: &[Sub], sub: &[u8], chan: &[u8]) -> Result<(u32, u32), Fault>
    requires { length subs.now < 2 ^ 32 }
    ensures value { result ≡ channel.channel_words subs.now sub.now chan.now }
    ensures fits { IfOk result (λ at. at.1 < channel.level_channels (slice_get subs.now at.0)) }
{
    let sub = read_input(subs, sub)?;
    let chan = number_below(chan, level_channels(subs, sub))?;
    Ok((sub, chan))
}

// The place of a subdevice with levels.
fn read_input(subs: &[Sub], word: &[u8]) -> Result<u32, Fault>
    requires { length subs.now < 2 ^ 32 }
    ensures { result ≡ channel.input_word subs.now word.now }
{
    let sub = number_below(word, subs.len() as u32)?;
    if 0 < level_channels(subs, sub) {
        Ok(sub)
    } else {
        Err(Fault::Limit)
    }
}

// How many channels with levels the subdevice at a place has.
fn level_channels(subs: &[Sub], place: u32) -> u32
    ensures { result ≡ channel.level_channels (slice_get subs.now place) }
{
    match subs.get(place as usize) {
        None => 0,
        Some(sub) => channels_with_levels(sub),
    }
}

// How many channels with levels a subdevice has.
fn channels_with_levels(sub: &Sub) -> u32
    ensures { result ≡ channel.level_channels (Some sub.now) }
{
    if sub.kind.has_levels() {
        sub.channels
    } else {
        0
    }
}

// A period in nanoseconds.
pub(crate) fn read_period(word: &[u8]) -> Result<u64, Fault>
    ensures value { result ≡ channel.period_word word.now }
    ensures limits { IfOk result (λ period. (1 ≤ period) × (period ≤ 10 ^ 12)) }
{
    time_in(word, 1, 1_000_000_000_000)
}

// The number of an external line.
fn read_line_number(version: u32, word: &[u8]) -> Result<u32, Fault>
    ensures value { result ≡ spec.line_word version word.now }
    ensures limits { IfOk result (λ line. line < 64) }
{
    number_below(word, most_lines(version))
}

// The time of a first edge, which has no limit of its own.
fn read_first(word: &[u8]) -> Result<u64, Fault>
    ensures value { result ≡ or_fault faults.BadNumber (number_of word.now) }
    ensures limits { IfOk result (λ first. first < 10 ^ 18) }
{
    match read_u64(word) {
        None => Err(Fault::BadNumber),
        Some(first) => Ok(first),
    }
}
