// The words of a line that say a wave.
ghost use Rattle.std.specs.Prelude.{◌≡◌, ◌<◌, ◌≤◌, ◌^◌, IfOk, length, map, slice_get};
ghost use Rattle.cm_base.specs.ReadStop.{Gives};
ghost use Rattle.cm_base.specs.Reading.{at_line};
ghost use Rattle.cm_signal.specs.Channel.{level_channels};
ghost use Rattle.cm_signal.specs.Fitting.{Fits};
ghost use Rattle.cm_signal.specs.Said.{IsSaid};
ghost use Rattle.cm_signal.specs.Wave as spec;
ghost use Rattle.cm_signal.specs.Wave.{AreHeld};

use crate::said::{read_channel, read_period};
use cm_base::faults::{Fault, ReadStop};
use cm_base::lists::Ints;
use cm_base::parts::refused;
use cm_base::words::{
    at_line, one, one_and_more, signed_number, signed_numbers, three, three_and_more,
};
use cm_board::board::{BoardDesc, Sub};
use cm_board::versions::is_wide;
use cm_signal::signal_line::SignalLine;
use cm_signal::wave::{Wave, WaveAt};
use std::alloc::Global;

/// `wave SUB CHAN KIND ..`
pub(crate) fn read_wave(
    alloc: Global,
    number: u32,
    board: &BoardDesc,
    words: &[&[u8]],
) -> Result<SignalLine, ReadStop>
    ensures value { Gives (λ said. said) result (at_line number (spec.wave_words board.now (map (λ word. word.now) words.now))) }
    ensures limits { IfOk result (IsSaid 0) }
    ensures fits { IfOk result (Fits board.now.subs) }
{
    let (sub, chan, kind, words) = at_line(number, three_and_more(words))?;
    read_kind(alloc, number, board, sub, chan, kind, words)
}

// The words after the kind of a wave.
fn read_kind(
    alloc: Global,
    number: u32,
    board: &BoardDesc,
    sub: &[u8],
    chan: &[u8],
    kind: &[u8],
    words: &[&[u8]],
) -> Result<SignalLine, ReadStop>
    ensures value { Gives (λ said. said) result (at_line number (spec.kind_words board.now sub.now chan.now kind.now (map (λ word. word.now) words.now))) }
    ensures limits { IfOk result (IsSaid 0) }
    ensures fits { IfOk result (Fits board.now.subs) }
{
    let subs = &board.subs;
    if kind == b"const".as_slice() {
        at_line(number, read_const(subs, sub, chan, words))
    } else if kind == b"square".as_slice() {
        at_line(number, read_square(subs, sub, chan, words))
    } else if kind == b"saw".as_slice() {
        at_line(number, read_saw(subs, sub, chan, words))
    } else if kind == b"table".as_slice() {
        read_table(alloc, number, subs, sub, chan, words)
    } else if kind == b"record".as_slice() {
        read_record(alloc, number, board, sub, chan, words)
    } else {
        Err(refused(number, Fault::Unknown))
    }
}

// `wave SUB CHAN const V`
fn read_const(subs: &[Sub], sub: &[u8], chan: &[u8], words: &[&[u8]]) -> Result<SignalLine, Fault>
    requires { length subs.now < 2 ^ 32 }
    ensures value { result ≡ spec.const_words subs.now sub.now chan.now (map (λ word. word.now) words.now) }
    ensures limits { IfOk result (IsSaid 0) }
    ensures fits { IfOk result (Fits subs.now) }
{
    let level = one(words)?;
    let (sub, chan) = read_channel(subs, sub, chan)?;
    let wave = Wave::Const(signed_number(level)?);
    Ok(SignalLine::Wave(WaveAt { sub, chan, wave }))
}

// `wave SUB CHAN square LOW HIGH PERIOD`
fn read_square(subs: &[Sub], sub: &[u8], chan: &[u8], words: &[&[u8]]) -> Result<SignalLine, Fault>
    requires { length subs.now < 2 ^ 32 }
    ensures value { result ≡ spec.square_words subs.now sub.now chan.now (map (λ word. word.now) words.now) }
    ensures limits { IfOk result (IsSaid 0) }
    ensures fits { IfOk result (Fits subs.now) }
{
    let ((sub, chan), low, high, period) = read_swing(subs, sub, chan, words)?;
    let wave = Wave::Square(low, high, period);
    Ok(SignalLine::Wave(WaveAt { sub, chan, wave }))
}

// `wave SUB CHAN saw LOW HIGH PERIOD`
fn read_saw(subs: &[Sub], sub: &[u8], chan: &[u8], words: &[&[u8]]) -> Result<SignalLine, Fault>
    requires { length subs.now < 2 ^ 32 }
    ensures value { result ≡ spec.saw_words subs.now sub.now chan.now (map (λ word. word.now) words.now) }
    ensures limits { IfOk result (IsSaid 0) }
    ensures fits { IfOk result (Fits subs.now) }
{
    let ((sub, chan), low, high, period) = read_swing(subs, sub, chan, words)?;
    let wave = Wave::Saw(low, high, period);
    Ok(SignalLine::Wave(WaveAt { sub, chan, wave }))
}

// The channel, both levels and the period of `wave SUB CHAN KIND LOW HIGH PERIOD`.
fn read_swing(
    subs: &[Sub],
    sub: &[u8],
    chan: &[u8],
    words: &[&[u8]],
) -> Result<((u32, u32), i32, i32, u64), Fault>
    requires { length subs.now < 2 ^ 32 }
    ensures value { result ≡ spec.swing_words subs.now sub.now chan.now (map (λ word. word.now) words.now) }
    ensures limits { IfOk result (λ s. (1 ≤ s.3) × (s.3 ≤ 10 ^ 12)) }
    ensures fits { IfOk result (λ s. s.0.1 < level_channels (slice_get subs.now s.0.0)) }
{
    let (low, high, period) = three(words)?;
    let at = read_channel(subs, sub, chan)?;
    let low = signed_number(low)?;
    let high = signed_number(high)?;
    let period = read_period(period)?;
    Ok((at, low, high, period))
}

// `wave SUB CHAN table PERIOD V..`
fn read_table(
    alloc: Global,
    number: u32,
    subs: &[Sub],
    sub: &[u8],
    chan: &[u8],
    words: &[&[u8]],
) -> Result<SignalLine, ReadStop>
    requires { length subs.now < 2 ^ 32 }
    ensures value { Gives (λ said. said) result (at_line number (spec.table_words subs.now sub.now chan.now (map (λ word. word.now) words.now))) }
    ensures limits { IfOk result (IsSaid 0) }
    ensures fits { IfOk result (Fits subs.now) }
{
    let ((sub, chan), period, levels) = read_levels(alloc, number, subs, sub, chan, words, 64)?;
    let wave = Wave::Table(period, levels);
    Ok(SignalLine::Wave(WaveAt { sub, chan, wave }))
}

// `wave SUB CHAN record PERIOD V..`, of boards whose text begins with `zendrouz 1`.
fn read_record(
    alloc: Global,
    number: u32,
    board: &BoardDesc,
    sub: &[u8],
    chan: &[u8],
    words: &[&[u8]],
) -> Result<SignalLine, ReadStop>
    ensures value { Gives (λ said. said) result (at_line number (spec.record_words board.now sub.now chan.now (map (λ word. word.now) words.now))) }
    ensures limits { IfOk result (IsSaid 0) }
    ensures fits { IfOk result (Fits board.now.subs) }
{
    if !is_wide(board.version) {
        return Err(refused(number, Fault::Unknown));
    }
    let most = words.len();
    let ((sub, chan), period, levels) = read_levels(
        alloc,
        number,
        &board.subs,
        sub,
        chan,
        words,
        most,
    )?;
    let wave = Wave::Record(period, levels);
    Ok(SignalLine::Wave(WaveAt { sub, chan, wave }))
}

// The channel, the period and at most `most` levels of `wave SUB CHAN KIND PERIOD V..`.
fn read_levels(
    alloc: Global,
    number: u32,
    subs: &[Sub],
    sub: &[u8],
    chan: &[u8],
    words: &[&[u8]],
    most: usize,
) -> Result<((u32, u32), u64, Ints), ReadStop>
    requires { length subs.now < 2 ^ 32 }
    ensures value { Gives (λ l. (l.0, l.1, l.2)) result (at_line number (spec.levels_words most subs.now sub.now chan.now (map (λ word. word.now) words.now))) }
    ensures limits { IfOk result (λ l. AreHeld l.1 l.2 × (length l.2 ≤ most)) }
    ensures fits { IfOk result (λ l. l.0.1 < level_channels (slice_get subs.now l.0.0)) }
{
    let (period, levels) = at_line(number, one_and_more(words))?;
    let at = at_line(number, read_channel(subs, sub, chan))?;
    let period = at_line(number, read_period(period))?;
    let levels = signed_numbers(alloc, number, levels, most)?;
    Ok((at, period, Ints::new(levels)))
}
