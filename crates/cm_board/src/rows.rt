// The kinds of rows: where a line may stand, how often, and what holds without it.

use crate::lines::{LINES_FORM, MUNGE_NONE, SCANS_FORM};
use crate::table::{Absent, Place, Row};

/// A line that each block needs, once.
pub(crate) const EACH: Row = Row {
    most: 1,
    wide: 1,
    since: 1,
    place: Place::Any,
    absent: Absent::Missing,
    of_channel: false,
};

/// The munge, which is none where no line says it.
pub(crate) const MUNGE: Row = Row {
    most: 1,
    wide: 1,
    since: 1,
    place: Place::Any,
    absent: Absent::Stands(MUNGE_NONE),
    of_channel: false,
};

/// The ranges.
pub(crate) const RANGES: Row = Row {
    most: 16,
    wide: 32,
    since: 1,
    place: Place::Any,
    absent: Absent::Missing,
    of_channel: false,
};

/// A line that each block with commands needs, once.
pub(crate) const NEEDED: Row = Row {
    most: 1,
    wide: 1,
    since: 1,
    place: Place::Commands,
    absent: Absent::MissingWithCommands,
    of_channel: false,
};

/// The greatest stop count, a million where no line says it.
pub(crate) const SCANS: Row = Row {
    most: 1,
    wide: 1,
    since: 1,
    place: Place::Commands,
    absent: Absent::Says(SCANS_FORM, 1_000_000),
    of_channel: false,
};

/// The number of external lines, none where no line says it.
pub(crate) const LINES: Row = Row {
    most: 1,
    wide: 1,
    since: 1,
    place: Place::Commands,
    absent: Absent::Says(LINES_FORM, 0),
    of_channel: false,
};

/// A line that a block with commands may have, once.
pub(crate) const ONCE: Row = Row {
    most: 1,
    wide: 1,
    since: 1,
    place: Place::Commands,
    absent: Absent::Nothing,
    of_channel: false,
};

/// A line that a block with commands may have 16 times.
pub(crate) const SIXTEEN: Row = Row {
    most: 16,
    wide: 16,
    since: 1,
    place: Place::Commands,
    absent: Absent::Nothing,
    of_channel: false,
};

/// A line of version 2 that a block with commands may have, once.
pub(crate) const SECOND: Row = Row {
    most: 1,
    wide: 1,
    since: 2,
    place: Place::Commands,
    absent: Absent::Nothing,
    of_channel: false,
};

/// A line of version 2 that an input with commands may have, once.
pub(crate) const INPUT: Row = Row {
    most: 1,
    wide: 1,
    since: 2,
    place: Place::Inputs,
    absent: Absent::Nothing,
    of_channel: false,
};

/// A line of the wider texts that a block with commands may have, once.
pub(crate) const WIDE: Row = Row {
    most: 1,
    wide: 1,
    since: 3,
    place: Place::Commands,
    absent: Absent::Nothing,
    of_channel: false,
};

/// A line of the wider texts that a block may have six times, once for each name that it can say.
pub(crate) const FLAGS: Row = Row {
    most: 6,
    wide: 6,
    since: 3,
    place: Place::Any,
    absent: Absent::Nothing,
    of_channel: false,
};
