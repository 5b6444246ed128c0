// The board's subdevices in numbers, as Comedi has them.
ghost use Rattle.std.specs.Prelude.{◌≡◌, ◌≤◌, ◌<◌, ◌^◌, ◌++◌, flat_map, OnOk};
ghost use Rattle.std.specs.List.{list_any};
ghost use Rattle.cm_serve.specs.Subdevices as spec;

use cm_base::numbers::{put_i64, put_u64};
use cm_base::transfer::NoMemory;
use cm_board::board::{BoardDesc, ChanSet, Kind, Range, Sub};
use cm_board::flags::Flag;
use cm_running::text::put_spaced;

// Flags of a subdevice (Comedi: `SDF_*`).
const OWN_CODES: u32 = 0x10;

const OWN_RANGES: u32 = 0x40;

const COMMANDS: u32 = 0x1000;

const WRITTEN: u32 = 0x4000;

const READ: u32 = 0x8000;

const READABLE: u32 = 0x1_0000;

const WRITABLE: u32 = 0x2_0000;

const GROUND: u32 = 0x10_0000;

const COMMON: u32 = 0x20_0000;

const DIFF: u32 = 0x40_0000;

const OTHER: u32 = 0x80_0000;

const MAPPED: u32 = 0x400_0000;

const LONG_CODES: u32 = 0x1000_0000;

// The number of a kind (Comedi: `COMEDI_SUBD_*`).
fn kind_number(kind: Kind) -> u32
    ensures { result ≡ spec.kind_number kind }
{
    match kind {
        Kind::Unused => 0,
        Kind::Ai => 1,
        Kind::Ao => 2,
        Kind::Di => 3,
        Kind::Do => 4,
        Kind::Dio => 5,
    }
}

// Whether channels of a kind can be written.
fn is_written(kind: Kind) -> bool
    ensures { result ≡ spec.is_written kind }
{
    kind.is_output() || kind.is_dio()
}

// The flags of commands, where the subdevice takes any.
fn command_flags(sub: &Sub) -> u32
    ensures value { result ≡ spec.command_flags sub.now }
    ensures small { result < 2 ^ 16 }
{
    if !sub.takes_commands() {
        return 0;
    }
    if sub.kind.is_output() {
        COMMANDS + WRITTEN
    } else {
        COMMANDS + READ
    }
}

// A flag where something holds.
fn flag(number: u32, holds: bool) -> u32
    ensures value { result ≡ spec.flag number holds }
    ensures small { result ≤ number }
{
    if holds { number } else { 0 }
}

// The flags of the references that the subdevice offers.
fn reference_flags(sub: &Sub) -> u32
    ensures value { result ≡ spec.reference_flags sub.now }
    ensures small { result < 2 ^ 24 }
{
    flag(GROUND, sub.has_flag(Flag::Ground))
        + flag(COMMON, sub.has_flag(Flag::Common))
        + flag(DIFF, sub.has_flag(Flag::Diff))
        + flag(OTHER, sub.has_flag(Flag::Other))
}

// The flags of what the subdevice offers.
fn offered_flags(sub: &Sub) -> u32
    ensures value { result ≡ spec.offered_flags sub.now }
    ensures small { result < 2 ^ 27 }
{
    flag(READABLE, sub.has_flag(Flag::Readable))
        + flag(WRITABLE, is_written(sub.kind))
        + reference_flags(sub)
        + flag(MAPPED, sub.has_flag(Flag::Mapped))
}

fn has_own_code(chan: &ChanSet) -> bool
    ensures { result ≡ spec.has_own_code chan.now }
{
    chan.maxdata.is_some()
}

fn has_own_ranges(chan: &ChanSet) -> bool
    ensures { result ≡ spec.has_own_ranges chan.now }
{
    !chan.ranges.is_empty()
}

// Whether some channel has a greatest code of its own.
fn have_own_codes(chans: &[ChanSet]) -> bool
    ensures { result ≡ list_any spec.has_own_code chans.now }
{
    chans.iter().any(|chan| has_own_code(chan))
}

// Whether some channel has ranges of its own.
fn have_own_ranges(chans: &[ChanSet]) -> bool
    ensures { result ≡ list_any spec.has_own_ranges chans.now }
{
    chans.iter().any(|chan| has_own_ranges(chan))
}

// Whether some code has more than 16 bits.
fn has_long_codes(sub: &Sub) -> bool
    ensures { result ≡ spec.has_long_codes sub.now }
{
    for chan in 0..sub.channels {
        if sub.maxdata_of(chan) > 0xffff {
            return true;
        }
    }
    false
}

// The flags that don't change.
fn lasting_flags(sub: &Sub) -> u32
    ensures { result ≡ spec.lasting_flags sub.now }
{
    offered_flags(sub)
        + command_flags(sub)
        + flag(OWN_CODES, have_own_codes(&sub.chans))
        + flag(OWN_RANGES, have_own_ranges(&sub.chans))
        + flag(LONG_CODES, has_long_codes(sub))
}

// How many samples the buffer holds, where there is one.
fn buffer_size(sub: &Sub) -> u32
    ensures { result ≡ spec.buffer_size sub.now }
{
    if sub.takes_commands() { sub.buffer } else { 0 }
}

// The longest list, where the subdevice has any.
fn longest_list(sub: &Sub) -> u32
    ensures { result ≡ spec.longest_list sub.now }
{
    match sub.kind {
        Kind::Unused => 0,
        _ => sub.list_max,
    }
}

// The line of a subdevice.
fn put_head(text: &mut Vec<u8>, sub: &Sub) -> Result<(), NoMemory>
    ensures { OnOk result (text.new.items ≡ text.old.items ++ spec.head_text sub.now) }
{
    let numbers = [
        lasting_flags(sub),
        sub.channels,
        longest_list(sub),
        buffer_size(sub),
    ];
    put_u64(text, u64::from(kind_number(sub.kind)))?;
    put_spaced(text, &numbers)?;
    text.extend_from_slice(b"\n")?;
    Ok(())
}

// A number after a space.
fn put_signed(text: &mut Vec<u8>, number: i32) -> Result<(), NoMemory>
    ensures { OnOk result (text.new.items ≡ text.old.items ++ spec.spaced number) }
{
    text.extend_from_slice(b" ")?;
    put_i64(text, i64::from(number))
}

// A range: its least and its greatest level, and its unit.
fn put_range(text: &mut Vec<u8>, range: Range) -> Result<(), NoMemory>
    ensures { OnOk result (text.new.items ≡ text.old.items ++ spec.range_text range) }
{
    put_signed(text, range.min)?;
    put_signed(text, range.max)?;
    put_signed(text, i32::from(range.unit))
}

// The ranges of a channel.
fn put_ranges(text: &mut Vec<u8>, sub: &Sub, chan: u32) -> Result<(), NoMemory>
    requires { chan < sub.now.channels }
    ensures { OnOk result (text.new.items ≡ text.old.items ++ spec.ranges_text sub.now chan) }
{
    for index in 0..sub.range_count(chan) {
        put_range(text, sub.range_of(chan, index))?;
    }
    Ok(())
}

// The line of a channel: its greatest code, and its ranges.
fn put_channel(text: &mut Vec<u8>, sub: &Sub, chan: u32) -> Result<(), NoMemory>
    requires { chan < sub.now.channels }
    ensures { OnOk result (text.new.items ≡ text.old.items ++ spec.channel_text sub.now chan) }
{
    put_u64(text, u64::from(sub.maxdata_of(chan)))?;
    put_ranges(text, sub, chan)?;
    text.extend_from_slice(b"\n")?;
    Ok(())
}

// The lines of the channels.
fn put_channels(text: &mut Vec<u8>, sub: &Sub) -> Result<(), NoMemory>
    ensures { OnOk result (text.new.items ≡ text.old.items ++ spec.channels_text sub.now) }
{
    for chan in 0..sub.channels {
        put_channel(text, sub, chan)?;
    }
    Ok(())
}

// A subdevice, and then its channels.
fn put_sub(text: &mut Vec<u8>, sub: &Sub) -> Result<(), NoMemory>
    ensures { OnOk result (text.new.items ≡ text.old.items ++ spec.sub_text sub.now) }
{
    put_head(text, sub)?;
    put_channels(text, sub)
}

fn put_subs(text: &mut Vec<u8>, subs: &[Sub]) -> Result<(), NoMemory>
    ensures { OnOk result (text.new.items ≡ text.old.items ++ flat_map spec.sub_text subs.now) }
{
    for sub in subs {
        put_sub(text, sub)?;
    }
    Ok(())
}

/// Appends the numbers of all subdevices, and then the board's name and the last time of the signals.
pub fn put_subdevices(text: &mut Vec<u8>, board: &BoardDesc, horizon: u64) -> Result<(), NoMemory>
    ensures { OnOk result (text.new.items ≡ text.old.items ++ spec.subdevices_text board.now horizon) }
{
    put_subs(text, &board.subs)?;
    text.extend_from_slice(b"ok ")?;
    text.extend_from_slice(&board.name)?;
    text.extend_from_slice(b" ")?;
    put_u64(text, horizon)?;
    text.extend_from_slice(b"\n")?;
    Ok(())
}
