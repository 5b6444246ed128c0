// The lines of a block: their rows and their forms.
ghost use Rattle.std.specs.Prelude.{◌≡◌};
ghost use Rattle.cm_board.specs.BoardTable.{board_table};
ghost use Rattle.cm_board.specs.Table.{table_text};

use crate::table::{Form, Limits, Row, Rule, Table, Word};
use crate::words::{CONVERTS, FIELD, FOLLOWING, SCAN_BEGINS, SCAN_ENDS, STARTS, STOPS, TIME};
use crate::{channel_lines, munge, rows};

/// The bits of a code.
pub const BITS: usize = 0;

/// How words of the buffer are munged.
pub const MUNGE: usize = 1;

/// A range.
pub const RANGE: usize = 2;

/// The sources that each trigger may have.
pub const SOURCES: usize = 3;

/// What the times of a command are multiples of.
pub const TICK: usize = 4;

/// The least and the greatest time of a scan.
pub const SCAN: usize = 5;

/// The least and the greatest time of a conversion.
pub const CONVERT: usize = 6;

/// The longest channel list.
pub const LIST: usize = 7;

/// The greatest stop count.
pub const SCANS: usize = 8;

/// How many external lines there are.
pub const LINES: usize = 9;

/// How many samples the buffer holds.
pub const BUFFER: usize = 10;

/// All entries of a list have one range.
pub const SAME_RANGE: usize = 11;

/// Two sources that may not stand together.
pub const FORBID: usize = 12;

/// External lines may be inverted.
pub const INVERT: usize = 13;

/// A FIFO between the converter and the buffer.
pub const FIFO: usize = 14;

/// The counters that make the times.
pub const CLOCK: usize = 15;

/// The board rounds times in a way of its own, whatever a command's flags say.
pub const ROUNDS: usize = 16;

/// Of two times on the tick that are as near, the lower is the nearest.
pub const HALF_DOWN: usize = 17;

/// The least time of a scan for each entry of the list.
pub const PER_ENTRY: usize = 18;

/// A timed scan that is shorter than its conversions is outside its limits.
pub const HOLDS: usize = 19;

/// The order of the channels in a list.
pub const ORDER: usize = 20;

/// All entries of a list have one reference.
pub const SAME_REFERENCE: usize = 21;

/// The ranges of all entries of a list have one polarity.
pub const SAME_POLARITY: usize = 22;

/// The bits of one channel.
pub const CHAN_BITS: usize = 23;

/// The munge of one channel.
pub const CHAN_MUNGE: usize = 24;

/// A range of one channel.
pub const CHAN_RANGE: usize = 25;

/// Something that the subdevice offers.
pub const FLAG: usize = 26;

/// How many rows there are.
pub const ROW_COUNT: usize = 27;

/// The form of `bits`.
pub const BITS_FORM: usize = 0;

/// The form of `munge none`, the first of its row.
pub const MUNGE_NONE: usize = BITS_FORM + 1;

/// The form of `munge offset`.
pub const MUNGE_OFFSET: usize = MUNGE_NONE + 1;

/// The form of `range`.
pub const RANGE_FORM: usize = MUNGE_NONE + munge::COUNT;

/// The form of `sources`.
pub const SOURCES_FORM: usize = RANGE_FORM + 1;

/// The form of `tick`.
pub const TICK_FORM: usize = SOURCES_FORM + 1;

/// The form of `scan`.
pub const SCAN_FORM: usize = TICK_FORM + 1;

/// The form of `convert`.
pub const CONVERT_FORM: usize = SCAN_FORM + 1;

/// The form of `list`.
pub const LIST_FORM: usize = CONVERT_FORM + 1;

/// The form of `scans`.
pub const SCANS_FORM: usize = LIST_FORM + 1;

/// The form of `lines`.
pub const LINES_FORM: usize = SCANS_FORM + 1;

/// The form of `buffer`.
pub const BUFFER_FORM: usize = LINES_FORM + 1;

/// The form of `forbid`.
pub const FORBID_FORM: usize = BUFFER_FORM + 2;

/// The form of `fifo`.
pub const FIFO_FORM: usize = FORBID_FORM + 2;

/// The form of `clock` with one counter.
pub const CLOCK_FORM: usize = FIFO_FORM + 1;

/// The form of `rounds`.
pub const ROUNDS_FORM: usize = CLOCK_FORM + 2;

/// The form of `perchan`.
pub const PER_ENTRY_FORM: usize = ROUNDS_FORM + 2;

/// The form of `channels`.
pub const ORDER_FORM: usize = PER_ENTRY_FORM + 2;

/// The form of `channels` with `repeat`.
pub const REPEATED_FORM: usize = ORDER_FORM + 1;

/// The form of `chan C bits`.
pub const CHAN_BITS_FORM: usize = REPEATED_FORM + 3;

/// The form of `chan C munge none`, the first of its row.
pub const CHAN_MUNGE_NONE: usize = CHAN_BITS_FORM + 1;

/// The form of `chan C range`.
pub const CHAN_RANGE_FORM: usize = CHAN_MUNGE_NONE + munge::COUNT;

/// The form of `flag`.
pub const FLAG_FORM: usize = CHAN_RANGE_FORM + 1;

const FORM_COUNT: usize = FLAG_FORM + 1;

// In the order in which the lines are printed.
static ROWS: [Row; ROW_COUNT] = [
    rows::EACH,
    rows::MUNGE,
    rows::RANGES,
    rows::NEEDED,
    rows::NEEDED,
    rows::NEEDED,
    rows::NEEDED,
    rows::NEEDED,
    rows::SCANS,
    rows::LINES,
    rows::NEEDED,
    rows::ONCE,
    rows::SIXTEEN,
    rows::SECOND,
    rows::INPUT,
    rows::WIDE,
    rows::WIDE,
    rows::WIDE,
    rows::WIDE,
    rows::WIDE,
    rows::WIDE,
    rows::WIDE,
    rows::WIDE,
    channel_lines::ONE,
    channel_lines::ONE,
    channel_lines::RANGES,
    rows::FLAGS,
];

static FORMS: [Form; FORM_COUNT] = [
    Form {
        row: BITS,
        words: &[
            Word::Fixed(b"bits"),
            Word::Number(Limits {
                least: 1,
                most: 24,
                wide: 24,
            }),
        ],
        rule: Rule::Free,
    },
    munge::PLAIN,
    munge::OFFSET,
    munge::SWAPPED,
    munge::LEFT,
    Form {
        row: RANGE,
        words: &[
            Word::Fixed(b"range"),
            Word::Signed,
            Word::Signed,
            Word::Number(Limits {
                least: 0,
                most: 2,
                wide: 2,
            }),
        ],
        rule: Rule::Below,
    },
    Form {
        row: SOURCES,
        words: &[
            Word::Fixed(b"sources"),
            STARTS,
            SCAN_BEGINS,
            CONVERTS,
            SCAN_ENDS,
            STOPS,
        ],
        rule: Rule::Free,
    },
    Form {
        row: TICK,
        words: &[
            Word::Fixed(b"tick"),
            Word::Number(Limits {
                least: 1,
                most: 1_000_000_000,
                wide: 1_000_000_000,
            }),
        ],
        rule: Rule::Free,
    },
    Form {
        row: SCAN,
        words: &[Word::Fixed(b"scan"), TIME, TIME],
        rule: Rule::Rising,
    },
    Form {
        row: CONVERT,
        words: &[Word::Fixed(b"convert"), TIME, TIME],
        rule: Rule::Rising,
    },
    Form {
        row: LIST,
        words: &[
            Word::Fixed(b"list"),
            Word::Number(Limits {
                least: 1,
                most: 256,
                wide: 1024,
            }),
        ],
        rule: Rule::Free,
    },
    Form {
        row: SCANS,
        words: &[Word::Fixed(b"scans"), TIME],
        rule: Rule::Free,
    },
    Form {
        row: LINES,
        words: &[
            Word::Fixed(b"lines"),
            Word::Number(Limits {
                least: 0,
                most: 16,
                wide: 64,
            }),
        ],
        rule: Rule::Free,
    },
    Form {
        row: BUFFER,
        words: &[
            Word::Fixed(b"buffer"),
            Word::Number(Limits {
                least: 1,
                most: 65_536,
                wide: 1_048_576,
            }),
        ],
        rule: Rule::Free,
    },
    Form {
        row: SAME_RANGE,
        words: &[Word::Fixed(b"samerange")],
        rule: Rule::Free,
    },
    Form {
        row: FORBID,
        words: &[
            Word::Fixed(b"forbid"),
            FIELD,
            Word::Source,
            FIELD,
            Word::Source,
        ],
        rule: Rule::Apart,
    },
    Form {
        row: INVERT,
        words: &[Word::Fixed(b"invert")],
        rule: Rule::Free,
    },
    Form {
        row: FIFO,
        words: &[
            Word::Fixed(b"fifo"),
            Word::Number(Limits {
                least: 2,
                most: 4096,
                wide: 4096,
            }),
            Word::Number(Limits {
                least: 0,
                most: 1_000_000_000,
                wide: 1_000_000_000,
            }),
        ],
        rule: Rule::Even,
    },
    Form {
        row: CLOCK,
        words: &[Word::Fixed(b"clock"), Word::Divisors],
        rule: Rule::Ordered,
    },
    Form {
        row: CLOCK,
        words: &[Word::Fixed(b"clock"), Word::Divisors, Word::Divisors],
        rule: Rule::Ordered,
    },
    Form {
        row: ROUNDS,
        words: &[
            Word::Fixed(b"rounds"),
            Word::Name(&[b"nearest", b"down", b"up"]),
        ],
        rule: Rule::Free,
    },
    Form {
        row: HALF_DOWN,
        words: &[Word::Fixed(b"halfdown")],
        rule: Rule::Free,
    },
    Form {
        row: PER_ENTRY,
        words: &[
            Word::Fixed(b"perchan"),
            Word::Number(Limits {
                least: 1,
                most: 4_294_967_295,
                wide: 4_294_967_295,
            }),
        ],
        rule: Rule::Free,
    },
    Form {
        row: HOLDS,
        words: &[Word::Fixed(b"scanfits")],
        rule: Rule::Free,
    },
    Form {
        row: ORDER,
        words: &[Word::Fixed(b"channels"), FOLLOWING],
        rule: Rule::Free,
    },
    Form {
        row: ORDER,
        words: &[
            Word::Fixed(b"channels"),
            FOLLOWING,
            Word::Name(&[b"repeat"]),
        ],
        rule: Rule::Free,
    },
    Form {
        row: SAME_REFERENCE,
        words: &[Word::Fixed(b"samearef")],
        rule: Rule::Free,
    },
    Form {
        row: SAME_POLARITY,
        words: &[Word::Fixed(b"samepolarity")],
        rule: Rule::Free,
    },
    channel_lines::BITS,
    munge::CHAN_PLAIN,
    munge::CHAN_OFFSET,
    munge::CHAN_SWAPPED,
    munge::CHAN_LEFT,
    channel_lines::RANGE,
    Form {
        row: FLAG,
        words: &[
            Word::Fixed(b"flag"),
            Word::Name(&[
                b"readable",
                b"ground",
                b"common",
                b"diff",
                b"other",
                b"mmap",
            ]),
        ],
        rule: Rule::Free,
    },
];

/// The lines of a block.
pub fn board_table() -> Table
    ensures { table_text result ≡ board_table }
{
    Table {
        rows: &ROWS,
        forms: &FORMS,
    }
}
