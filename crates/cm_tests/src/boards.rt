// The board of the tests, and its signals.

/// An analog input of 16 bits with two ranges, an analog output of 12 bits, eight digital channels,
/// and a place that holds nothing.
pub const DEMO: &str = "comedi 1
board demo
subdevice ai 4
bits 16
munge offset
range -10000000 10000000 0
range -5000001 5000000 0
sources now|ext|int follow|timer|ext now|timer|ext count none|count
tick 100
scan 1000 160000
convert 200 1000000
list 16
scans 1000000
lines 2
buffer 4
subdevice ao 2
bits 12
munge offset
range -10000000 10000000 0
sources now|int timer now count none|count
tick 100
scan 1000 1000000
convert 1000 1000
list 2
scans 1000000
lines 0
buffer 8
subdevice dio 8
bits 1
munge none
range 0 1 2
subdevice unused 0
";

/// A table of six levels, 1000 nanoseconds each.
pub const TABLE: &str =
    "signals 10000\nwave 0 0 table 1000 0 1000000 2000000 3000000 4000000 5000000\nsession\n";
