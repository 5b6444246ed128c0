// The answers to the lines of `expand`.
ghost use Rattle.std.specs.Prelude.{◌≡◌, ◌+◌, ◌≤◌, ◌<◌, ◌∷◌, ◌++◌, drop, length, OnOk, OnErr, IsErrOf};
ghost use Rattle.std.specs.Fmt.{decimal};
ghost use Rattle.std.specs.List.{All, flat_map};
ghost use Rattle.std.specs.Io.KnownBytes.{Appends};
ghost use Rattle.cm_base.specs.Causes.{Rose};
ghost use Rattle.cm_base.specs.Transfer.{AppendsPrefix, Moves};
ghost use Rattle.cm_expand.specs.PlanView.{plan_text};
ghost use Rattle.cm_job.specs.ExpandLines.{CanExpand};
ghost use Rattle.cm_block.specs.ExpandSession as spec;

use cm_base::outside::Sink;
use cm_base::transfer::{NoMemory, TextStop, flush, flush_full};
use cm_board::board::BoardDesc;
use cm_expand::board::Board;
use cm_expand::call::plan_of;
use cm_expand::conv::Conv;
use cm_expand::plan::Plan;
use cm_job::expand_lines::ExpandLine;
use cm_signal::signals::Signals;
use cm_text::end::{End, put_end_line};
use itoa::write_digits;
use std::alloc::Global;

// How many conversions are passed on at once.
const PIECE: usize = 64;

// Room for the lines of so many conversions, each of at most 63 bytes.
const ROOM: usize = 4_032;

/// Writes the conversions of each line in order, in pieces of about 64 KiB.
pub fn expand_all<'a, K: Sink>(
    alloc: Global,
    board: &'a BoardDesc,
    signals: &'a Signals,
    lines: &'a [ExpandLine],
    sink: &mut K,
) -> Result<(), TextStop>
    requires { All (CanExpand board.now signals.now) lines.now }
    ensures ok { OnOk result (Appends (K.text sink.old) (K.text sink.new) (spec.expands_text board.now signals.now lines.now)) }
    ensures prefix { OnErr result (AppendsPrefix (K.text sink.old) (K.text sink.new) (spec.expands_text board.now signals.now lines.now)) }
    ensures fault { IsErrOf result TextStop.WriteFault → Rose (K.faults sink.old) (K.faults sink.new) }
    ensures later { K.faults sink.old ≤ K.faults sink.new }
{
    let mut text = Vec::new(alloc);
    for line in lines {
        put_expansion(alloc, plan_of(board, signals, line), &mut text, sink)?;
    }
    flush(sink, &mut text)?;
    Ok(())
}

// Passes on the conversions of a plan, and whether nothing is missing. Where it fails, a prefix of
// them is written.
fn put_expansion<K: Sink>(
    alloc: Global,
    plan: Plan<'_>,
    text: &mut Vec<u8>,
    sink: &mut K,
) -> Result<(), TextStop>
    ensures goes { OnOk result (Moves (K.text sink.old) (K.text sink.new) (text.old.items ++ spec.expansion_text (plan_text plan.entry)) text.new.items) }
    ensures prefix { OnErr result (AppendsPrefix (K.text sink.old) (K.text sink.new) (text.old.items ++ spec.expansion_text (plan_text plan.entry))) }
    ensures fault { IsErrOf result TextStop.WriteFault → Rose (K.faults sink.old) (K.faults sink.new) }
    ensures later { K.faults sink.old ≤ K.faults sink.new }
{
    let board = Board::with_items(alloc, plan)?;
    put_conversions(board, text, sink)
}

// Passes on the conversions of a board that stands before the first, and whether nothing is missing.
fn put_conversions<K: Sink>(
    board: Board<'_>,
    text: &mut Vec<u8>,
    sink: &mut K,
) -> Result<(), TextStop>
    requires { board.place ≡ 0 }
    ensures goes { OnOk result (Moves (K.text sink.old) (K.text sink.new) (text.old.items ++ spec.expansion_text board.entry.plan) text.new.items) }
    ensures prefix { OnErr result (AppendsPrefix (K.text sink.old) (K.text sink.new) (text.old.items ++ spec.expansion_text board.entry.plan)) }
    ensures fault { IsErrOf result TextStop.WriteFault → Rose (K.faults sink.old) (K.faults sink.new) }
    ensures later { K.faults sink.old ≤ K.faults sink.new }
{
    let mut board = board;
    let none = Conv {
        time: 0,
        place: 0,
        list_index: 0,
        raw: 0,
    };
    let mut piece = [none; PIECE];
    let mut lines = [0; ROOM];
    loop {
        let count = board.take(&mut piece);
        pass_on(&piece[..count], &mut lines, text, sink)?;
        if count < PIECE {
            break;
        }
    }
    put_end(text, board.complete())?;
    Ok(())
}

// Passes on the lines of conversions. Where it fails, a prefix of them is written. They are made in `lines`.
fn pass_on<K: Sink>(
    conversions: &[Conv],
    lines: &mut [u8],
    text: &mut Vec<u8>,
    sink: &mut K,
) -> Result<(), TextStop>
    requires few { length conversions.now ≤ 64 }
    requires room { length lines.old ≡ 4032 }
    ensures goes { OnOk result (Moves (K.text sink.old) (K.text sink.new) (text.old.items ++ flat_map spec.conversion_line conversions.now) text.new.items) }
    ensures small { OnOk result (length text.new.items < 65536) }
    ensures no_memory { IsErrOf result TextStop.NoMemory → sink.new ≡ sink.old }
    ensures prefix { OnErr result (AppendsPrefix (K.text sink.old) (K.text sink.new) (text.old.items ++ flat_map spec.conversion_line conversions.now)) }
    ensures fault { IsErrOf result TextStop.WriteFault → Rose (K.faults sink.old) (K.faults sink.new) }
    ensures later { K.faults sink.old ≤ K.faults sink.new }
{
    put_lines(text, lines, conversions)?;
    flush_full(sink, text)?;
    Ok(())
}

// Appends the lines of conversions. They are made from the last to the first, so that each number is written
// where it stays.
#[inline(never)]
fn put_lines(text: &mut Vec<u8>, lines: &mut [u8], conversions: &[Conv]) -> Result<(), NoMemory>
    requires few { length conversions.now ≤ 64 }
    requires room { length lines.old ≡ 4032 }
    ensures { OnOk result (text.new.items ≡ text.old.items ++ flat_map spec.conversion_line conversions.now) }
{
    let mut start = ROOM;
    let mut i = conversions.len();
    while i > 0 {
        i -= 1;
        start = put_line(lines, start, &conversions[i]);
    }
    text.extend_from_slice(&lines[start..])?;
    Ok(())
}

// Puts the line of a conversion before what stands from `end` on. Gives where it starts.
#[inline(always)]
fn put_line(lines: &mut [u8], end: usize, conversion: &Conv) -> usize
    requires room { 63 ≤ end }
    requires within { end ≤ length lines.old }
    ensures text { drop result lines.new ≡ spec.conversion_line conversion.now ++ drop end lines.old }
    ensures short { end ≤ result + 63 }
    ensures before { result ≤ end }
{
    let after_index = put_number(lines, end, u64::from(conversion.raw), b'\n');
    let after_time = put_number(lines, after_index, u64::from(conversion.list_index), b' ');
    put_number(lines, after_time, conversion.time, b' ')
}

// Puts a number and a byte after it before what stands from `end` on. Gives where the number starts.
#[inline(always)]
fn put_number(lines: &mut [u8], end: usize, number: u64, byte: u8) -> usize
    requires room { 21 ≤ end }
    requires within { end ≤ length lines.old }
    ensures text { drop result lines.new ≡ decimal number ++ byte ∷ drop end lines.old }
    ensures short { end ≤ result + 21 }
    ensures before { result ≤ end }
{
    lines[end - 1] = byte;
    write_digits(number, lines, end - 1)
}

// Appends whether nothing is missing.
fn put_end(text: &mut Vec<u8>, complete: bool) -> Result<(), NoMemory>
    ensures { OnOk result (text.new.items ≡ text.old.items ++ spec.end_line complete) }
{
    put_end_line(text, if complete { End::Done } else { End::Dry })
}
