// The times that the timers of a subdevice can make, in nanoseconds.
ghost use Rattle.std.specs.Prelude.{◌≡◌, ◌<◌, ◌≤◌, ◌^◌, ◌/◌, ◌%◌, ◌*◌, ◌==◌, ◌&&◌, length, IsTrue};
ghost use Rattle.cm_base.specs.Source as source;
ghost use Rattle.cm_board.specs.declared.board.Way.TheVariants as ways;
ghost use Rattle.cm_test.specs.Steps as spec;
ghost use Rattle.cm_test.specs.Questions.{same_trigger, is_narrow, is_within, is_rounded};

use crate::limits::{ArgLimits, least_period, scan_length};
use cm_base::source::TIMER;
use cm_board::board::{Sub, Way};
use cm_board::versions::is_wide;
use cm_cmd::command::{Cmd, Trig};

// The numbers of the flags' rounding bits that are asked about (Comedi: `CMDF_ROUND_NEAREST`,
// `CMDF_ROUND_DOWN` and `CMDF_ROUND_UP_NEXT`). The one that is left is `CMDF_ROUND_UP`.
const NEAREST: u32 = 0;

const DOWN: u32 = 1;

const UP_NEXT: u32 = 3;

/// Rounds the times, gives a scan the time for its conversions, and reports whether nothing changed.
pub(crate) fn round(sub: &Sub, cmd: &mut Cmd) -> bool
    requires narrow { IsTrue (is_narrow sub.now cmd.old) }
    requires within { IsTrue (is_within sub.now cmd.old) }
    requires few { length cmd.old.list < 2 ^ 32 }
    ensures cmd { cmd.new ≡ spec.rounded sub.now cmd.old }
    ensures result { result ≡ is_rounded sub.now cmd.old }
    ensures kept { IsTrue result → cmd.new ≡ cmd.old }
{
    let scan_begin = cmd.scan_begin;
    let convert = cmd.convert;
    round_times(sub, cmd);
    raise(sub, cmd);
    has_times(cmd, scan_begin, convert)
}

// Whether both times of a command are these.
fn has_times(cmd: &Cmd, scan_begin: Trig, convert: Trig) -> bool
    ensures { result ≡ (same_trigger cmd.now.scan_begin scan_begin && same_trigger cmd.now.convert convert) }
{
    cmd.scan_begin == scan_begin && cmd.convert == convert
}

// Rounds both times to ones that can be made in their limits. A scan still fits then.
fn round_times(sub: &Sub, cmd: &mut Cmd)
    requires narrow { IsTrue (is_narrow sub.now cmd.old) }
    requires within { IsTrue (is_within sub.now cmd.old) }
    requires few { length cmd.old.list < 2 ^ 32 }
    ensures cmd { cmd.new ≡ spec.timed sub.now cmd.old }
    ensures fits { spec.up sub.now.timers (spec.scan_time sub.now cmd.new) < 2 ^ 32 }
{
    let way = way(sub, cmd.flags);
    let scans = ArgLimits {
        low: least_period(sub, cmd),
        high: sub.scan_max,
    };
    let conversions = ArgLimits {
        low: sub.conv_min,
        high: sub.conv_max,
    };
    cmd.scan_begin = rounded_timer(sub, way, scans, cmd.scan_begin);
    cmd.convert = rounded_timer(sub, way, conversions, cmd.convert);
}

// Gives a scan at least the time that its conversions need.
fn raise(sub: &Sub, cmd: &mut Cmd)
    requires few { length cmd.old.list < 2 ^ 32 }
    requires fits { spec.up sub.now.timers (spec.scan_time sub.now cmd.old) < 2 ^ 32 }
    ensures { cmd.new ≡ spec.raised sub.now cmd.old }
{
    let least = scan_time(sub, cmd);
    if cmd.scan_begin.arg < least {
        cmd.scan_begin.arg = sub.timers.up(least) as u32;
    }
}

// A timer's argument rounded, and moved to the nearest time that can be made in the limits.
fn rounded_timer(sub: &Sub, way: Way, limits: ArgLimits, trigger: Trig) -> Trig
    requires { IsTrue (trigger.src == source.timer) → spec.up sub.now.timers limits.low ≤ limits.high }
    ensures { result ≡ spec.rounded_timer sub.now.rounding.half_down way sub.now.timers (spec.possible sub.now.timers limits.low limits.high) trigger }
{
    if trigger.src == TIMER {
        let least = sub.timers.up(limits.low);
        let most = u64::from(sub.timers.down(limits.high));
        let time = rounded_by(sub, way, trigger.arg).min(most).max(least);
        Trig {
            src: trigger.src,
            arg: time as u32,
        }
    } else {
        trigger
    }
}

// The way in which a subdevice rounds: its own, or that of the flags.
fn way(sub: &Sub, flags: u32) -> Way
    ensures { result ≡ spec.way sub.now flags }
{
    match sub.rounding.own {
        Some(way) => way,
        None => way_of_bits(sub.version, rounding(flags)),
    }
}

// The way of rounding that the flags ask for: the last is as up, and in the wider texts as nearest.
fn way_of_bits(version: u32, bits: u32) -> Way
    ensures { result ≡ spec.way_of_bits version bits }
{
    match bits {
        NEAREST => Way::Nearest,
        DOWN => Way::Down,
        UP_NEXT if is_wide(version) => Way::Nearest,
        _ => Way::Up,
    }
}

// The two rounding bits of the flags (Comedi: `CMDF_ROUND_MASK`).
fn rounding(flags: u32) -> u32
    ensures { result ≡ spec.rounding flags }
{
    flags / 65536 % 4
}

// The time that can be made, by a way of rounding. Halves go up, or down where the subdevice rounds so.
fn rounded_by(sub: &Sub, way: Way, time: u32) -> u64
    ensures { result ≡ spec.rounded_by sub.now.rounding.half_down way sub.now.timers time }
{
    match way {
        Way::Nearest => nearest(sub, time),
        Way::Down => u64::from(sub.timers.down(time)),
        Way::Up => sub.timers.up(time),
    }
}

// The nearest time that can be made. Of two that are as near it is the later, or the earlier where the
// subdevice rounds so.
fn nearest(sub: &Sub, time: u32) -> u64
    ensures { result ≡ spec.rounded_by sub.now.rounding.half_down ways.Nearest sub.now.timers time }
{
    let below = u64::from(sub.timers.down(time));
    let above = sub.timers.up(time);
    let early = u64::from(time) - below;
    let late = above - u64::from(time);
    if early < late || (sub.rounding.half_down && early == late) {
        below
    } else {
        above
    }
}

// The time that a timed scan needs for its conversions, where these are timed too.
fn scan_time(sub: &Sub, cmd: &Cmd) -> u32
    requires few { length cmd.now.list < 2 ^ 32 }
    requires fits { spec.scan_time sub.now cmd.now < 2 ^ 32 }
    ensures { result ≡ spec.scan_time sub.now cmd.now }
{
    if cmd.scan_begin.src == TIMER && cmd.convert.src == TIMER {
        cmd.convert.arg * scan_length(sub, cmd)
    } else {
        0
    }
}
