// The words that lines of a block are made of, but for those of one line alone.

use crate::table::{Limits, Sets, Word};

/// A time between triggers in nanoseconds, or a count of scans: 1 to 4,000,000,000, and in the wider
/// texts each number of 32 bits but 0.
pub(crate) const TIME: Word = Word::Number(Limits {
    least: 1,
    most: 4_000_000_000,
    wide: u32::MAX,
});

/// A trigger of a command.
pub(crate) const FIELD: Word = Word::Name(&[
    b"start",
    b"scan_begin",
    b"convert",
    b"scan_end",
    b"stop",
]);

/// How the channels of a list follow each other.
pub(crate) const FOLLOWING: Word = Word::Name(&[
    b"consecutive",
    b"straight",
    b"first",
    b"rising",
    b"distinct",
]);

/// Sources of START: now, ext, int.
pub(crate) const STARTS: Word = Word::Sources(Sets {
    first: 194,
    second: 194,
    wide: 194,
});

/// Sources of SCAN_BEGIN: follow, timer, ext.
pub(crate) const SCAN_BEGINS: Word = Word::Sources(Sets {
    first: 84,
    second: 84,
    wide: 84,
});

/// Sources of CONVERT: now, timer, ext, and in wider texts follow.
pub(crate) const CONVERTS: Word = Word::Sources(Sets {
    first: 82,
    second: 82,
    wide: 86,
});

/// Sources of SCAN_END: count.
pub(crate) const SCAN_ENDS: Word = Word::Sources(Sets {
    first: 32,
    second: 32,
    wide: 32,
});

/// Sources of STOP: none, count, and from version 2 on ext.
pub(crate) const STOPS: Word = Word::Sources(Sets {
    first: 33,
    second: 97,
    wide: 97,
});
