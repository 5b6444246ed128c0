// What is known of the codes of a subdevice and of its channels.
ghost use Rattle.std.specs.Prelude.{◌≡◌, ◌+◌, ◌<◌, ◌^◌, ◌++◌, Some, flat_map, length, OnOk};
ghost use Rattle.cm_board.specs.Board.{maxdata_by, munge_by, ranges_by};
ghost use Rattle.cm_facts.specs.ChannelFacts as spec;
ghost use Rattle.cm_facts.specs.FactLine.{fact_line};
ghost use Rattle.cm_facts.specs.Names.{munge_words};

use crate::fact::{FactWord, put_fact};
use cm_base::transfer::NoMemory;
use cm_board::board::{ChanSet, Munge, Range, Sub};

/// Appends the codes of a subdevice that isn't unused: its greatest code, its munge, and its ranges.
#[tactic(auto, unfolding(crate::specs::ChannelFacts::code_facts))]
pub(crate) fn put_codes(text: &mut Vec<u8>, index: u32, sub: &Sub) -> Result<(), NoMemory>
    ensures { OnOk result (text.new.items ≡ text.old.items ++ spec.code_facts index sub.now) }
{
    if sub.kind.is_unused() {
        return Ok(());
    }
    put_fact(text, b"maxdata", &[index, sub.maxdata], &[])?;
    put_munge(text, b"munge", &[index], sub.munge)?;
    put_ranges(text, b"range", &[index], 0, &sub.ranges)
}

/// Appends the codes of these channels of a subdevice.
pub(crate) fn put_channels(
    text: &mut Vec<u8>,
    index: u32,
    sub: &Sub,
    chans: &[ChanSet],
) -> Result<(), NoMemory>
    ensures { OnOk result (text.new.items ≡ text.old.items ++ flat_map (spec.channel_facts index sub.now) chans.now) }
{
    for chan in chans {
        put_channel(text, index, sub, chan)?;
    }
    Ok(())
}

// Appends the codes of a channel. What it doesn't have is that of its subdevice.
fn put_channel(text: &mut Vec<u8>, index: u32, sub: &Sub, chan: &ChanSet) -> Result<(), NoMemory>
    ensures { OnOk result (text.new.items ≡ text.old.items ++ spec.channel_facts index sub.now chan.now) }
{
    let maxdata = maxdata_of(sub, chan);
    let munge = munge_of(sub, chan);
    put_chan(text, index, chan.chan, maxdata, munge, ranges_of(sub, chan))
}

// Appends the codes of a channel: its greatest code, its munge, and its ranges.
fn put_chan(
    text: &mut Vec<u8>,
    index: u32,
    chan: u32,
    maxdata: u32,
    munge: Munge,
    ranges: &[Range],
) -> Result<(), NoMemory>
    ensures { OnOk result (text.new.items ≡ text.old.items ++ spec.chan_facts index chan maxdata munge ranges.now) }
{
    put_fact(text, b"chan_maxdata", &[index, chan, maxdata], &[])?;
    put_munge(text, b"chan_munge", &[index, chan], munge)?;
    put_ranges(text, b"chan_range", &[index, chan], 0, ranges)
}

// Returns the greatest code of a channel.
fn maxdata_of(sub: &Sub, chan: &ChanSet) -> u32
    ensures { result ≡ maxdata_by (Some chan.now) sub.now.maxdata }
{
    chan.maxdata.unwrap_or(sub.maxdata)
}

// Returns how the words of a channel are munged.
fn munge_of(sub: &Sub, chan: &ChanSet) -> Munge
    ensures { result ≡ munge_by (Some chan.now) sub.now.munge }
{
    chan.munge.unwrap_or(sub.munge)
}

// Returns the ranges of a channel.
fn ranges_of<'a>(sub: &'a Sub, chan: &'a ChanSet) -> &'a [Range]
    ensures { result.now ≡ ranges_by (Some chan.now) sub.now.ranges }
{
    match chan.ranges.as_slice() {
        [] => &sub.ranges,
        own => own,
    }
}

// Appends how words are munged.
fn put_munge(text: &mut Vec<u8>, key: &[u8], place: &[u32], munge: Munge) -> Result<(), NoMemory>
    ensures { OnOk result (text.new.items ≡ text.old.items ++ fact_line key.now place.now (munge_words munge)) }
{
    match munge {
        Munge::Plain => put_fact(text, key, place, &[FactWord::Fixed(b"none")]),
        Munge::Offset => put_fact(text, key, place, &[FactWord::Fixed(b"offset")]),
        Munge::Swap16 => put_fact(text, key, place, &[FactWord::Fixed(b"swap16")]),
        Munge::Left(bits) => {
            let words = [FactWord::Fixed(b"left"), FactWord::Number(u64::from(bits))];
            put_fact(text, key, place, &words)
        }
    }
}

// Appends ranges, numbered from a number on.
#[tactic(auto, using(crate::proofs::Pieces::facts_more, crate::proofs::Pieces::none_more))]
fn put_ranges(
    text: &mut Vec<u8>,
    key: &[u8],
    place: &[u32],
    number: usize,
    ranges: &[Range],
) -> Result<(), NoMemory>
    requires { number + length ranges.now < 2 ^ 64 }
    ensures { OnOk result (text.new.items ≡ text.old.items ++ spec.range_facts key.now place.now number ranges.now) }
{
    match ranges {
        [] => Ok(()),
        [range, more @ ..] => {
            put_range(text, key, place, number, *range)?;
            put_ranges(text, key, place, number + 1, more)
        }
    }
}

// Appends a range with its number.
fn put_range(
    text: &mut Vec<u8>,
    key: &[u8],
    place: &[u32],
    number: usize,
    range: Range,
) -> Result<(), NoMemory>
    ensures { OnOk result (text.new.items ≡ text.old.items ++ fact_line key.now place.now (spec.range_words number range)) }
{
    let words = [
        FactWord::Number(number as u64),
        FactWord::Signed(range.min),
        FactWord::Signed(range.max),
        FactWord::Number(u64::from(range.unit)),
    ];
    put_fact(text, key, place, &words)
}
