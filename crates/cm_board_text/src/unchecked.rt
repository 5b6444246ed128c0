// A subdevice before the rules over its lines are asked.
ghost use Rattle.std.specs.Prelude.{◌≡◌};
ghost use Rattle.cm_base.specs.Source.{allows};
ghost use Rattle.cm_board_text.specs.Block.{has_line};

use cm_base::source::{EXT, TIMER};
use cm_board::board::{
    ChanSet, Fifo, Forbid, Kind, LeastScan, ListRules, Range, Rounding, Sub, Timers,
};
use cm_board::channels::{maxdata_by, munge_by};
use cm_board::items::Item;
use cm_board::munge::Munge;
use cm_board::versions::is_wide;

/// A subdevice whose numbers keep their limits one by one, and maybe not the rules over them.
#[derive(Drop)]
pub struct Unchecked {
    pub version: u32,
    pub kind: Kind,
    pub channels: u32,
    pub maxdata: u32,
    pub munge: Munge,
    pub ranges: Vec<Range>,
    pub sources: [u32; 5],
    pub timers: Timers,
    pub scan_min: u32,
    pub scan_max: u32,
    pub conv_min: u32,
    pub conv_max: u32,
    pub list_max: u32,
    pub scans_max: u32,
    pub lines: u32,
    pub buffer: u32,
    pub rounding: Rounding,
    pub least_scan: LeastScan,
    pub lists: ListRules,
    pub forbidden: Vec<Forbid>,
    pub chans: Vec<ChanSet>,
    pub invert: bool,
    pub fifo: Option<Fifo>,
    pub block: Vec<Item>,
}

impl Unchecked {
    ghost use Rattle.cm_board_text.specs.Block.{are_on_tick, are_times_ok, fits_timed, is_board_ok, is_entries_ok, is_lines_ok, is_list_ok};
    ghost use Rattle.cm_board.specs.Board.{AreTimers, IsSaidSub, is_bits_ok, is_channel_ok};
    ghost use Rattle.cm_board_text.specs.UncheckedView.{unchecked_text};

    /// The rules over the lines of a block.
    pub(crate) fn is_board_ok(&self) -> bool
        requires { AreTimers self.now.timers }
        ensures { result ≡ is_board_ok (unchecked_text self.now) }
    {
        self.is_bits_ok()
            && self.are_times_ok()
            && self.is_list_ok()
            && self.is_lines_ok()
            && self.is_entries_ok()
    }

    /// The subdevice, where all rules hold.
    pub(crate) fn into_sub(self) -> Sub
        requires { IsSaidSub (unchecked_text self) }
        ensures { result ≡ unchecked_text self }
    {
        let sources = self.sources;
        Sub {
            version: self.version,
            kind: self.kind,
            channels: self.channels,
            maxdata: self.maxdata,
            munge: self.munge,
            ranges: self.ranges,
            sources,
            timers: self.timers,
            scan_min: self.scan_min,
            scan_max: self.scan_max,
            conv_min: self.conv_min,
            conv_max: self.conv_max,
            list_max: self.list_max,
            scans_max: self.scans_max,
            lines: self.lines,
            buffer: self.buffer,
            rounding: self.rounding,
            least_scan: self.least_scan,
            lists: self.lists,
            forbidden: self.forbidden,
            chans: self.chans,
            invert: self.invert,
            fifo: self.fifo,
            block: self.block,
        }
    }

    // Each digital channel has one bit, and each munge goes with its greatest code.
    #[tactic(auto, unfolding(cm_board::specs::Board::is_bits_ok))]
    fn is_bits_ok(&self) -> bool
        ensures { result ≡ is_bits_ok (unchecked_text self.now) }
    {
        (0..self.channels).all(|chan| self.is_channel_ok(chan))
    }

    #[tactic(auto, unfolding(cm_board::specs::Board::maxdata_of, cm_board::specs::Board::munge_of))]
    fn is_channel_ok(&self, chan: u32) -> bool
        ensures { result ≡ is_channel_ok (unchecked_text self.now) chan }
    {
        let maxdata = maxdata_by(&self.chans, chan, self.maxdata);
        let munge = munge_by(&self.chans, chan, self.munge);
        (!self.kind.is_digital() || maxdata == 1) && munge.fits_bits(maxdata)
    }

    // The limits of times are multiples of the tick.
    fn are_on_tick(&self) -> bool
        requires { AreTimers self.now.timers }
        ensures { result ≡ are_on_tick (unchecked_text self.now) }
    {
        let tick = self.timers.tick;
        self.scan_min % tick == 0
            && self.scan_max % tick == 0
            && self.conv_min % tick == 0
            && self.conv_max % tick == 0
    }

    // They are that but in the wider texts; and the board can make a time between those of a scan,
    // and one between those of a conversion.
    fn are_times_ok(&self) -> bool
        requires { AreTimers self.now.timers }
        ensures { result ≡ are_times_ok (unchecked_text self.now) }
    {
        (is_wide(self.version) || self.are_on_tick())
            && self.timers.up(self.scan_min) <= u64::from(self.scan_max)
            && self.timers.up(self.conv_min) <= u64::from(self.conv_max)
    }

    // Where scans may be timed, the longest that the board can make holds so much.
    fn fits_timed(&self, time: u128) -> bool
        requires { AreTimers self.now.timers }
        ensures { result ≡ fits_timed (unchecked_text self.now) time }
    {
        let [_, scan_begin, _, _, _] = self.sources;
        !allows(scan_begin, TIMER) || time <= u128::from(self.timers.down(self.scan_max))
    }

    // All conversions of the longest list fit into the longest scan, and where both are timed
    // those that the board can make.
    fn is_list_ok(&self) -> bool
        requires { AreTimers self.now.timers }
        ensures { result ≡ is_list_ok (unchecked_text self.now) }
    {
        let [_, _, convert, _, _] = self.sources;
        let timed = u128::from(self.timers.up(self.conv_min)) * u128::from(self.list_max);
        u64::from(self.conv_min) * u64::from(self.list_max) <= u64::from(self.scan_max)
            && (!allows(convert, TIMER) || self.fits_timed(timed))
    }

    // The longest scan has the time that the board needs for the entries of the longest list.
    fn is_entries_ok(&self) -> bool
        requires { AreTimers self.now.timers }
        ensures { result ≡ is_entries_ok (unchecked_text self.now) }
    {
        let time = u128::from(self.least_scan.per_entry) * u128::from(self.list_max);
        time <= u128::from(self.scan_max) && self.fits_timed(time)
    }

    // Where an external source may stand there is an external line.
    fn is_lines_ok(&self) -> bool
        ensures { result ≡ is_lines_ok (unchecked_text self.now) }
    {
        let [start, scan_begin, convert, scan_end, stop] = self.sources;
        has_line(self.lines, start)
            && has_line(self.lines, scan_begin)
            && has_line(self.lines, convert)
            && has_line(self.lines, scan_end)
            && has_line(self.lines, stop)
    }
}

// A trigger that may be external has a line.
fn has_line(lines: u32, mask: u32) -> bool
    ensures { result ≡ has_line lines mask }
{
    !allows(mask, EXT) || 1 <= lines
}

// The mask has all bits of a source.
fn allows(mask: u32, source: u32) -> bool
    ensures { result ≡ allows mask source }
{
    source & mask == source
}
