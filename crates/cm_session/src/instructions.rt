// The lines of instructions, `T insn F SUB KIND ..`, by their kinds.
ghost use Rattle.std.specs.Prelude.{◌≡◌, ◌≤◌, map, IfOk};
ghost use Rattle.cm_base.specs.ReadStop.{Gives};
ghost use Rattle.cm_base.specs.Reading.{at_line};
ghost use Rattle.cm_session.specs.Instructions as spec;
ghost use Rattle.cm_session.specs.Limits.{IsLimited};

use crate::forms::{Start, data_words, place};
use crate::op::{Op, SessionLine};
use cm_base::faults::{Fault, ReadStop};
use cm_base::parts::refused;
use cm_base::words::{at_line, none, number_in, one, one_and_more, three_and_more, two};
use cm_cmd::reading::read_entry;
use std::alloc::Global;

/// `T insn F SUB KIND ..`
pub(crate) fn instruction(
    alloc: Global,
    start: &Start<'_>,
    words: &[&[u8]],
) -> Result<SessionLine, ReadStop>
    ensures value { Gives (λ line. line) result (at_line start.now.number (spec.on_instruction start.now.bounds start.now.time.now (map (λ word. word.now) words.now))) }
    ensures limits { IfOk result (IsLimited start.now.bounds.horizon) }
{
    let number = start.number;
    let (file, sub, kind, words) = at_line(number, three_and_more(words))?;
    if kind == b"read".as_slice() {
        at_line(number, read(start, file, sub, words))
    } else if kind == b"write".as_slice() {
        write(alloc, start, file, sub, words)
    } else if kind == b"bits".as_slice() {
        at_line(number, bits(start, file, sub, words))
    } else if kind == b"config".as_slice() {
        at_line(number, config(start, file, sub, words))
    } else if kind == b"gtod".as_slice() {
        at_line(number, gtod(start, file, sub, words))
    } else if kind == b"inttrig".as_slice() {
        at_line(number, trigger(start, file, sub, words))
    } else {
        Err(refused(number, Fault::Unknown))
    }
}

// `read ENTRY N`
fn read(start: &Start<'_>, file: &[u8], sub: &[u8], words: &[&[u8]]) -> Result<SessionLine, Fault>
    ensures value { result ≡ spec.read_words start.now.bounds start.now.time.now file.now sub.now (map (λ word. word.now) words.now) }
    ensures limits { IfOk result (IsLimited start.now.bounds.horizon) }
{
    let (entry, n) = two(words)?;
    let (head, sub) = place(start, file, sub)?;
    let entry = read_entry(entry)?;
    let n = number_in(n, 1, 64)?;
    Ok(head.line(Op::InsnRead { sub, entry, n }))
}

// `write ENTRY V..`
fn write(
    alloc: Global,
    start: &Start<'_>,
    file: &[u8],
    sub: &[u8],
    words: &[&[u8]],
) -> Result<SessionLine, ReadStop>
    ensures value { Gives (λ line. line) result (at_line start.now.number (spec.write_words start.now.bounds start.now.time.now file.now sub.now (map (λ word. word.now) words.now))) }
    ensures limits { IfOk result (IsLimited start.now.bounds.horizon) }
{
    let (entry, values) = at_line(start.number, one_and_more(words))?;
    let (head, sub) = at_line(start.number, place(start, file, sub))?;
    let entry = at_line(start.number, read_entry(entry))?;
    let values = data_words(alloc, start.number, values, 64)?;
    Ok(head.line(Op::InsnWrite { sub, entry, values }))
}

// `bits MASK BITS`
fn bits(start: &Start<'_>, file: &[u8], sub: &[u8], words: &[&[u8]]) -> Result<SessionLine, Fault>
    ensures value { result ≡ spec.bits_words start.now.bounds start.now.time.now file.now sub.now (map (λ word. word.now) words.now) }
    ensures limits { IfOk result (IsLimited start.now.bounds.horizon) }
{
    let (mask, bits) = two(words)?;
    let (head, sub) = place(start, file, sub)?;
    let mask = number_in(mask, 0, u32::MAX)?;
    let bits = number_in(bits, 0, u32::MAX)?;
    Ok(head.line(Op::InsnBits { sub, mask, bits }))
}

// `config ENTRY D`
fn config(start: &Start<'_>, file: &[u8], sub: &[u8], words: &[&[u8]]) -> Result<SessionLine, Fault>
    ensures value { result ≡ spec.config_words start.now.bounds start.now.time.now file.now sub.now (map (λ word. word.now) words.now) }
    ensures limits { IfOk result (IsLimited start.now.bounds.horizon) }
{
    let (entry, value) = two(words)?;
    let (head, sub) = place(start, file, sub)?;
    let entry = read_entry(entry)?;
    let value = number_in(value, 0, u32::MAX)?;
    Ok(head.line(Op::InsnConfig { sub, entry, value }))
}

// `gtod`
fn gtod(start: &Start<'_>, file: &[u8], sub: &[u8], words: &[&[u8]]) -> Result<SessionLine, Fault>
    ensures value { result ≡ spec.gtod_words start.now.bounds start.now.time.now file.now sub.now (map (λ word. word.now) words.now) }
    ensures limits { IfOk result (IsLimited start.now.bounds.horizon) }
{
    none(words)?;
    let (head, sub) = place(start, file, sub)?;
    Ok(head.line(Op::InsnGtod { sub }))
}

// `inttrig D`
fn trigger(
    start: &Start<'_>,
    file: &[u8],
    sub: &[u8],
    words: &[&[u8]],
) -> Result<SessionLine, Fault>
    ensures value { result ≡ spec.trigger_words start.now.bounds start.now.time.now file.now sub.now (map (λ word. word.now) words.now) }
    ensures limits { IfOk result (IsLimited start.now.bounds.horizon) }
{
    let num = one(words)?;
    let (head, sub) = place(start, file, sub)?;
    let num = number_in(num, 0, u32::MAX)?;
    Ok(head.line(Op::InsnIntTrig { sub, num }))
}
