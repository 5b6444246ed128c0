// The lines about one channel: those about all of them, after `chan C`.

use crate::lines::{CHAN_BITS, CHAN_RANGE};
use crate::table::{Absent, Form, Limits, Place, Row, Rule, Word};

/// A line that each channel may have once.
pub(crate) const ONE: Row = Row {
    most: 1,
    wide: 1,
    since: 2,
    place: Place::Any,
    absent: Absent::Nothing,
    of_channel: true,
};

/// The ranges of a channel.
pub(crate) const RANGES: Row = Row {
    most: 16,
    wide: 32,
    since: 2,
    place: Place::Any,
    absent: Absent::Nothing,
    of_channel: true,
};

/// `chan C bits K`
pub(crate) const BITS: Form = Form {
    row: CHAN_BITS,
    words: &[
        Word::Fixed(b"chan"),
        Word::Channel,
        Word::Fixed(b"bits"),
        Word::Number(Limits {
            least: 1,
            most: 24,
            wide: 24,
        }),
    ],
    rule: Rule::Free,
};

/// `chan C range MIN MAX UNIT`
pub(crate) const RANGE: Form = Form {
    row: CHAN_RANGE,
    words: &[
        Word::Fixed(b"chan"),
        Word::Channel,
        Word::Fixed(b"range"),
        Word::Signed,
        Word::Signed,
        Word::Number(Limits {
            least: 0,
            most: 2,
            wide: 2,
        }),
    ],
    rule: Rule::Below,
};
