// The sources of a trigger, one bit each, with Comedi's numbers.

/// Never: a command without a stop count.
pub const NONE: u32 = 0x1;

/// At once.
pub const NOW: u32 = 0x2;

/// As soon as what comes before has ended.
pub const FOLLOW: u32 = 0x4;

/// At an absolute time. No board of this project has it.
pub const TIME: u32 = 0x8;

/// Once a period, which is the argument in nanoseconds.
pub const TIMER: u32 = 0x10;

/// After so many, which is the argument.
pub const COUNT: u32 = 0x20;

/// At an edge of the external line that the argument names.
pub const EXT: u32 = 0x40;

/// At an internal trigger, whose number is the argument.
pub const INT: u32 = 0x80;

/// Something else. No board of this project has it.
pub const OTHER: u32 = 0x100;
