// The numbers of one channel: its own where the board says them, else those of its subdevice.
ghost use Rattle.std.specs.Prelude.{◌≡◌, option_map};
ghost use Rattle.cm_board.specs.Board.{maxdata_by, munge_by, ranges_by, set_for, some_or};

use crate::board::{ChanSet, Range};
use crate::munge::Munge;

// What the board says of a channel alone, where it says something.
fn set_for(chans: &[ChanSet], chan: u32) -> Option<&ChanSet>
    ensures { option_map (λ set. set.now) result ≡ set_for chans.now chan }
{
    match chans {
        [] => None,
        [set, more @ ..] => {
            if set.chan == chan {
                Some(set)
            } else {
                set_for(more, chan)
            }
        }
    }
}

/// The greatest code of a channel.
pub fn maxdata_by(chans: &[ChanSet], chan: u32, whole: u32) -> u32
    ensures { result ≡ maxdata_by (set_for chans.now chan) whole }
{
    match set_for(chans, chan) {
        Some(set) => set.maxdata.unwrap_or(whole),
        None => whole,
    }
}

/// How the words of a channel are munged.
pub fn munge_by(chans: &[ChanSet], chan: u32, whole: Munge) -> Munge
    ensures { result ≡ munge_by (set_for chans.now chan) whole }
{
    match set_for(chans, chan) {
        Some(set) => set.munge.unwrap_or(whole),
        None => whole,
    }
}

/// The ranges of a channel.
pub(crate) fn ranges_by<'a>(chans: &'a [ChanSet], chan: u32, whole: &'a [Range]) -> &'a [Range]
    ensures { result.now ≡ ranges_by (set_for chans.now chan) whole.now }
{
    match set_for(chans, chan) {
        Some(set) => own_or(&set.ranges, whole),
        None => whole,
    }
}

// The ranges of a channel alone, where it has any, else others.
fn own_or<'a>(own: &'a [Range], whole: &'a [Range]) -> &'a [Range]
    ensures { result.now ≡ some_or own.now whole.now }
{
    match own {
        [] => whole,
        _ => own,
    }
}
