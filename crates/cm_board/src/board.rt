// Subdevices as plain data with the rules that each of them keeps.

use crate::channels::{maxdata_by, munge_by, ranges_by};
use crate::items::Item;
pub use crate::munge::Munge;
use cm_base::lists::Nums;
use std::marker::Model;

/// What a subdevice is (Comedi: `COMEDI_SUBD_*`).
#[derive(Clone, Copy)]
pub enum Kind {
    /// No subdevice. It has no channels and takes no commands.
    Unused,
    /// Analog input.
    Ai,
    /// Analog output.
    Ao,
    /// Digital input.
    Di,
    /// Digital output.
    Do,
    /// Digital channels that each are an input or an output. They take no commands.
    Dio,
}

/// The levels that a channel can measure or put out, in micro-units. The unit is 0 for volt, 1 for
/// mA and 2 for none (Comedi: `comedi_krange`).
#[derive(Clone, Copy)]
pub struct Range {
    pub min: i32,
    pub max: i32,
    pub unit: u8,
}

/// Two sources that may not stand together, each at the number of its trigger: start 0,
/// scan_begin 1, convert 2, scan_end 3, stop 4.
#[derive(Clone, Copy)]
pub struct Forbid {
    pub field: u8,
    pub src: u32,
    pub other: u8,
    pub other_src: u32,
}

/// What a board says of one channel alone. What it doesn't say is its subdevice's.
#[derive(Drop)]
pub struct ChanSet {
    /// Counts the subdevice's channels from 0.
    pub chan: u32,
    /// The greatest code, `2^bits - 1` with 1 to 24 bits.
    pub maxdata: Option<u32>,
    pub munge: Option<Munge>,
    /// At most 16, or 32 in the wider texts. Where there is one, the channel has these ranges and no others.
    pub ranges: Vec<Range>,
}

impl Model for ChanSet {
    ghost use Rattle.cm_board.specs.Board.{ChanText};

    ghost Value = { ChanText };

    ghost use Rattle.cm_board.specs.ChanView.{chan_text};

    ghost view = { chan_text };
}

/// How the channels of a list follow each other.
#[derive(Clone, Copy)]
pub enum Order {
    /// Each is the one after the channel before, and channel 0 comes after the last of the subdevice.
    Consecutive,
    /// Each is the one after the channel before, without that turn.
    Straight,
    /// The first entry has channel 0, the one after it channel 1, and so on.
    First,
    /// Each is above the one before.
    Rising,
    /// No channel stands twice.
    Distinct,
}

/// The order of the channels in a list.
#[derive(Clone, Copy)]
pub struct ListOrder {
    pub order: Order,
    /// Whether the list may be entries in this order, and then these same entries over and over.
    pub repeats: bool,
}

/// What all entries of a channel list keep together.
#[derive(Clone, Copy)]
pub struct ListRules {
    /// Whether they have ranges of one number.
    pub same_range: bool,
    /// The order of their channels, where one is asked for.
    pub order: Option<ListOrder>,
    /// Whether they have one reference.
    pub same_reference: bool,
    /// Whether the ranges of all are of one polarity: each begins below 0, or none does.
    pub same_polarity: bool,
}

/// A way to round a time to the tick.
#[derive(Clone, Copy)]
pub enum Way {
    Nearest,
    Down,
    Up,
}

/// How a board rounds times.
#[derive(Clone, Copy)]
pub struct Rounding {
    /// Its own way, whatever a command's flags say, where it has one.
    pub own: Option<Way>,
    /// Whether of two times that are as near the lower is the nearest. Else it is the greater.
    pub half_down: bool,
}

/// What a timed scan holds at least.
#[derive(Clone, Copy)]
pub struct LeastScan {
    /// So many nanoseconds for each entry of the list, whatever its conversions follow; or 0.
    pub per_entry: u32,
    /// Whether a scan that is shorter than its timed conversions is outside its limits. Else it is only
    /// made longer.
    pub holds: bool,
}

/// What a counter of a board's clock can divide by. Each number is 1 to 16,777,216.
#[derive(Drop)]
pub enum Divisors {
    /// All whole numbers from the first to the second, which isn't below it.
    Span(u32, u32),
    /// 1 to 32 numbers, strictly rising.
    Listed(Nums),
}

/// The timers of a board: what times they can make.
#[derive(Drop)]
pub struct Timers {
    /// What all times are multiples of, in nanoseconds: 1 to 1,000,000,000.
    pub tick: u32,
    /// The one or two counters that make the times: the tick times a divisor of each. Where there is
    /// none, each multiple of the tick can be made.
    pub clock: Vec<Divisors>,
}

impl Model for Timers {
    ghost use Rattle.cm_board.specs.Times.{TimersText};

    ghost Value = { TimersText };

    ghost use Rattle.cm_board.specs.TimersView.{timers_text};

    ghost view = { timers_text };
}

/// A FIFO between a board's converter and its buffer.
#[derive(Clone, Copy)]
pub struct Fifo {
    /// How many samples it holds: 2 to 4,096, and even. It asks to be emptied when it is half full.
    pub depth: u32,
    /// How long after that it is emptied, in nanoseconds: at most a second.
    pub latency: u32,
}

/// A subdevice (Comedi: `comedi_subdevice`). Times are in nanoseconds.
#[derive(Drop)]
pub struct Sub {
    /// The version of the board, on which it depends what the lines of a block may say.
    pub version: u32,
    pub kind: Kind,
    /// 1 to 64, in the wider texts to 256, and 0 where the kind is unused.
    pub channels: u32,
    /// The greatest code, `2^bits - 1` with 1 to 24 bits, of each channel that has none of its own.
    pub maxdata: u32,
    pub munge: Munge,
    pub ranges: Vec<Range>,
    /// The sources that start, scan_begin, convert, scan_end and stop may have. All are 0 where the
    /// subdevice takes no commands.
    pub sources: [u32; 5],
    /// The times between triggers that the board can make.
    pub timers: Timers,
    pub scan_min: u32,
    pub scan_max: u32,
    pub conv_min: u32,
    pub conv_max: u32,
    /// The longest channel list.
    pub list_max: u32,
    /// The greatest stop count.
    pub scans_max: u32,
    /// How many external lines there are.
    pub lines: u32,
    /// How many samples the buffer holds.
    pub buffer: u32,
    pub rounding: Rounding,
    pub least_scan: LeastScan,
    pub lists: ListRules,
    pub forbidden: Vec<Forbid>,
    /// The channels with numbers of their own, in rising order.
    pub chans: Vec<ChanSet>,
    /// Whether an external argument may ask for the falling edges of its line (Comedi: `CR_INVERT`).
    pub invert: bool,
    /// The FIFO of the board, where it has one.
    pub fifo: Option<Fifo>,
    /// The lines of the subdevice's block, with those that hold without standing there, in the order
    /// in which they are printed. All else here is what they say.
    pub block: Vec<Item>,
}

impl Model for Sub {
    ghost use Rattle.cm_board.specs.Board.{SubText, IsSaidSub};

    ghost Value = { SubText };

    ghost use Rattle.cm_board.specs.View.{sub_text};

    ghost view = { sub_text };

    ghost invariant = { λ s. IsSaidSub (sub_text s) };
}

impl Sub {
    ghost use Rattle.std.specs.Prelude.{◌≡◌, ◌<◌, ◌≤◌, ◌^◌, ◌<ℤ◌, IsTrue, length};
    ghost use Rattle.std.specs.List.{All};
    ghost use Rattle.cm_board.specs.Board.{IsRange, is_fall, is_munge, external_line, maxdata_of, munge_of, range_count, range_of, ranges_of, takes_commands};

    /// Whether the subdevice takes commands.
    pub fn takes_commands(&self) -> bool
        ensures { result ≡ takes_commands self.now }
    {
        let masks = self.sources;
        !(masks[0] == 0 && masks[1] == 0 && masks[2] == 0 && masks[3] == 0 && masks[4] == 0)
    }

    /// The greatest code of a channel.
    #[tactic(auto, unfolding(crate::specs::Board::maxdata_of))]
    pub fn maxdata_of(&self, chan: u32) -> u32
        requires { chan < self.now.channels }
        ensures value { result ≡ maxdata_of self.now chan }
        ensures low { 1 ≤ result }
        ensures high { result < 2 ^ 24 }
    {
        maxdata_by(&self.chans, chan, self.maxdata)
    }

    /// How the words of a channel are munged.
    #[tactic(auto, unfolding(crate::specs::Board::munge_of))]
    pub fn munge_of(&self, chan: u32) -> Munge
        requires { chan < self.now.channels }
        ensures value { result ≡ munge_of self.now chan }
        ensures shift { IsTrue (is_munge result) }
    {
        munge_by(&self.chans, chan, self.munge)
    }

    // The ranges of a channel.
    #[tactic(auto, unfolding(crate::specs::Board::ranges_of))]
    fn ranges_of(&self, chan: u32) -> &[Range]
        requires { chan < self.now.channels }
        ensures value { result.now ≡ ranges_of self.now chan }
        ensures few { length result.now ≤ 32 }
        ensures proper { All IsRange result.now }
    {
        ranges_by(&self.chans, chan, &self.ranges)
    }

    /// How many ranges a channel has.
    pub fn range_count(&self, chan: u32) -> u32
        requires { chan < self.now.channels }
        ensures { result ≡ range_count self.now chan }
    {
        self.ranges_of(chan).len() as u32
    }

    /// A range of a channel by its number.
    pub fn range_of(&self, chan: u32, index: u32) -> Range
        requires chan { chan < self.now.channels }
        requires index { index < range_count self.now chan }
        ensures value { result ≡ range_of self.now chan index }
        ensures proper { result.min <ℤ result.max }
    {
        self.ranges_of(chan)[index as usize]
    }

    /// The external line that an argument names: where the lines can be inverted, bit 31 isn't part
    /// of its number.
    pub fn external_line(&self, arg: u32) -> u32
        ensures { result ≡ external_line self.now arg }
    {
        if self.invert { arg % 0x8000_0000 } else { arg }
    }

    /// Whether an external argument asks for the falling edges of its line (Comedi: `CR_INVERT`).
    pub fn is_fall(&self, arg: u32) -> bool
        ensures { result ≡ is_fall self.now arg }
    {
        self.invert && arg / 0x8000_0000 % 2 == 1
    }
}

/// A board: its name of 1 to 32 printable bytes, and its 1 to 16 subdevices.
#[derive(Drop)]
pub struct BoardDesc {
    /// The version of the board's text: 1 and 2 for `comedi 1` and `comedi 2`, and 3 for `zendrouz 1`.
    /// Each takes all that those before it take.
    pub version: u32,
    pub name: Vec<u8>,
    pub subs: Vec<Sub>,
}

impl Model for BoardDesc {
    ghost use Rattle.cm_board.specs.Board.{BoardText, IsSoundBoard};

    ghost Value = { BoardText };

    ghost use Rattle.cm_board.specs.BoardView.{board_text};

    ghost view = { board_text };

    ghost invariant = { λ b. IsSoundBoard (board_text b) };
}
