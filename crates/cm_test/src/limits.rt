// The limits of each trigger's argument.
ghost use Rattle.std.specs.Prelude.{◌≡◌, ◌≤◌, ◌<◌, ◌^◌, ◌==◌, length, IsTrue};
ghost use Rattle.cm_base.specs.Source as source;
ghost use Rattle.cm_test.specs.Steps as spec;
ghost use Rattle.cm_test.specs.Questions.{same_trigger, is_within};

use cm_base::source::{COUNT, EXT, TIMER};
use cm_board::board::Sub;
use cm_cmd::command::{Cmd, Trig};

/// The least and the greatest value of a trigger's argument.
#[derive(Clone, Copy)]
pub struct ArgLimits {
    pub low: u32,
    pub high: u32,
}

/// Moves each argument to the nearest value in its limits, and reports whether all were there.
pub(crate) fn repair(sub: &Sub, cmd: &mut Cmd) -> bool
    requires { length cmd.old.list < 2 ^ 32 }
    ensures cmd { cmd.new ≡ spec.repaired sub.now cmd.old }
    ensures result { result ≡ is_within sub.now cmd.old }
    ensures kept { IsTrue result → cmd.new ≡ cmd.old }
{
    let limits = start_limits(sub, cmd);
    let mut kept = limits.repair(sub, &mut cmd.start);
    let limits = scan_begin_limits(sub, cmd);
    kept &= limits.repair(sub, &mut cmd.scan_begin);
    let limits = convert_limits(sub, cmd);
    kept &= limits.repair(sub, &mut cmd.convert);
    let length = cmd.list.len() as u32;
    kept &= put(&mut cmd.scan_end, length);
    let limits = stop_limits(sub, cmd);
    kept &= limits.repair(sub, &mut cmd.stop);
    kept
}

impl ArgLimits {
    // One value and no other.
    fn exactly(value: u32) -> ArgLimits
        ensures { result ≡ spec.exactly value }
    {
        ArgLimits {
            low: value,
            high: value,
        }
    }

    // The external lines, counted from 0.
    fn lines(sub: &Sub) -> ArgLimits
        ensures { result ≡ spec.line_limits sub.now }
    {
        ArgLimits {
            low: 0,
            high: sub.lines.saturating_sub(1),
        }
    }

    // Moves an argument to the nearest value in the limits, and reports whether it was there. Of an
    // external one the line is moved, and bit 31 stays where lines can be inverted.
    fn repair(self, sub: &Sub, trigger: &mut Trig) -> bool
        requires { IsTrue (trigger.old.src == source.ext) → self.low ≡ 0 }
        ensures trigger { trigger.new ≡ spec.moved sub.now self trigger.old }
        ensures result { result ≡ same_trigger trigger.new trigger.old }
    {
        let limited = limited(sub, *trigger);
        let rest = trigger.arg - limited;
        put(trigger, limited.min(self.high).max(self.low) + rest)
    }
}

// The part of an argument that its limits are about: the line of an external one.
fn limited(sub: &Sub, trigger: Trig) -> u32
    ensures value { result ≡ spec.limited sub.now trigger }
    ensures part { result ≤ trigger.arg }
{
    match trigger.src {
        EXT => sub.external_line(trigger.arg),
        _ => trigger.arg,
    }
}

// Gives a trigger an argument, and reports whether it had it.
fn put(trigger: &mut Trig, arg: u32) -> bool
    ensures trigger { trigger.new ≡ spec.with_arg arg trigger.old }
    ensures result { result ≡ same_trigger trigger.new trigger.old }
{
    let old = *trigger;
    trigger.arg = arg;
    *trigger == old
}

fn start_limits(sub: &Sub, cmd: &Cmd) -> ArgLimits
    ensures { result ≡ spec.start_limits sub.now cmd.now }
{
    match cmd.start.src {
        EXT => ArgLimits::lines(sub),
        _ => ArgLimits::exactly(0),
    }
}

fn scan_begin_limits(sub: &Sub, cmd: &Cmd) -> ArgLimits
    requires { length cmd.now.list < 2 ^ 32 }
    ensures { result ≡ spec.scan_begin_limits sub.now cmd.now }
{
    match cmd.scan_begin.src {
        TIMER => ArgLimits {
            low: least_period(sub, cmd).max(held_time(sub, cmd)),
            high: sub.scan_max,
        },
        EXT => ArgLimits::lines(sub),
        _ => ArgLimits::exactly(0),
    }
}

/// The least period of scans, in nanoseconds: one with the time that the board needs for each entry
/// of the list. The longest period is not shorter.
pub(crate) fn least_period(sub: &Sub, cmd: &Cmd) -> u32
    requires { length cmd.now.list < 2 ^ 32 }
    ensures value { result ≡ spec.least_period sub.now cmd.now }
    ensures fits { result ≤ sub.now.scan_max }
{
    let entries = sub.least_scan.per_entry * scan_length(sub, cmd);
    sub.scan_min.max(entries)
}

// The time of timed conversions within their limits, where a shorter timed scan is outside its limits.
fn held_time(sub: &Sub, cmd: &Cmd) -> u32
    requires few { length cmd.now.list < 2 ^ 32 }
    requires timed { IsTrue (cmd.now.scan_begin.src == source.timer) }
    ensures value { result ≡ spec.held_time sub.now cmd.now }
    ensures fits { result ≤ sub.now.scan_max }
{
    if sub.least_scan.holds && cmd.convert.src == TIMER {
        let mut convert = cmd.convert;
        convert_limits(sub, cmd).repair(sub, &mut convert);
        convert.arg * scan_length(sub, cmd)
    } else {
        0
    }
}

fn convert_limits(sub: &Sub, cmd: &Cmd) -> ArgLimits
    requires { length cmd.now.list < 2 ^ 32 }
    ensures { result ≡ spec.convert_limits sub.now cmd.now }
{
    match cmd.convert.src {
        TIMER => ArgLimits {
            low: sub.conv_min,
            high: slowest_conversion(sub, cmd),
        },
        EXT => ArgLimits::lines(sub),
        _ => ArgLimits::exactly(0),
    }
}

// The longest time between conversions: where scans are timed, the longest one that the timers can make
// with which a scan still fits.
fn slowest_conversion(sub: &Sub, cmd: &Cmd) -> u32
    requires { length cmd.now.list < 2 ^ 32 }
    ensures { result ≡ spec.slowest_conversion sub.now cmd.now }
{
    if cmd.scan_begin.src == TIMER {
        let time = sub.timers.down(sub.scan_max) / scan_length(sub, cmd);
        sub.conv_max.min(sub.timers.down(time))
    } else {
        sub.conv_max
    }
}

/// The length of a command's list, moved into the lengths that a list may have: 1 to the
/// subdevice's `list_max`.
pub(crate) fn scan_length(sub: &Sub, cmd: &Cmd) -> u32
    requires { length cmd.now.list < 2 ^ 32 }
    ensures value { result ≡ spec.scan_length sub.now cmd.now }
    ensures some { 1 ≤ result }
{
    let length = cmd.list.len() as u32;
    length.min(sub.list_max).max(1)
}

fn stop_limits(sub: &Sub, cmd: &Cmd) -> ArgLimits
    ensures { result ≡ spec.stop_limits sub.now cmd.now }
{
    match cmd.stop.src {
        COUNT => ArgLimits {
            low: 1,
            high: sub.scans_max,
        },
        EXT => ArgLimits::lines(sub),
        _ => ArgLimits::exactly(0),
    }
}
