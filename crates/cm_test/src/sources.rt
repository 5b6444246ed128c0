// The sources of a command: which a subdevice has, and which may stand together.
ghost use Rattle.std.specs.Prelude.{◌≡◌, ◌&&◌, ◌==◌, not, IsTrue};
ghost use Rattle.std.specs.List.{list_any};
ghost use Rattle.cm_test.specs.Steps.{narrowed, narrowed_to};
ghost use Rattle.cm_test.specs.Questions.{same_trigger, has_sources, is_narrow, source_at, is_forbidden, is_one_bit, are_single, is_endless, is_compatible};

use cm_base::source::{FOLLOW, NOW};
use cm_board::board::{Forbid, Sub};
use cm_cmd::command::{Cmd, Trig};

/// Leaves each trigger the sources that the subdevice has, and reports whether it had some and no others.
pub(crate) fn narrow(sub: &Sub, cmd: &mut Cmd) -> bool
    ensures cmd { cmd.new ≡ narrowed sub.now cmd.old }
    ensures result { result ≡ is_narrow sub.now cmd.old }
    ensures kept { IsTrue result → cmd.new ≡ cmd.old }
{
    let some = has_sources(cmd);
    let mut kept = narrow_trigger(sub.sources[0], &mut cmd.start);
    kept &= narrow_trigger(sub.sources[1], &mut cmd.scan_begin);
    kept &= narrow_trigger(sub.sources[2], &mut cmd.convert);
    kept &= narrow_trigger(sub.sources[3], &mut cmd.scan_end);
    kept &= narrow_trigger(sub.sources[4], &mut cmd.stop);
    kept && some
}

// Leaves a trigger the sources of the mask, and reports whether it had no others.
fn narrow_trigger(mask: u32, trigger: &mut Trig) -> bool
    ensures trigger { trigger.new ≡ narrowed_to mask trigger.old }
    ensures result { result ≡ same_trigger trigger.new trigger.old }
{
    let old = *trigger;
    trigger.src &= mask;
    *trigger == old
}

fn has_sources(cmd: &Cmd) -> bool
    ensures { result ≡ has_sources cmd.now }
{
    cmd.start.src != 0
        && cmd.scan_begin.src != 0
        && cmd.convert.src != 0
        && cmd.scan_end.src != 0
        && cmd.stop.src != 0
}

/// Whether each trigger has one source, and these may stand together.
pub(crate) fn is_compatible(sub: &Sub, cmd: &Cmd) -> bool
    ensures { result ≡ is_compatible sub.now cmd.now }
{
    are_single(cmd) && !is_endless(cmd) && !has_forbidden(&sub.forbidden, cmd)
}

fn are_single(cmd: &Cmd) -> bool
    ensures { result ≡ are_single cmd.now }
{
    is_one_bit(cmd.start.src)
        && is_one_bit(cmd.scan_begin.src)
        && is_one_bit(cmd.convert.src)
        && is_one_bit(cmd.scan_end.src)
        && is_one_bit(cmd.stop.src)
}

fn is_one_bit(src: u32) -> bool
    ensures { result ≡ is_one_bit src }
{
    src & src.saturating_sub(1) == 0
}

// Whether scans follow each other at once, with all conversions at once, which those are that follow
// each other.
fn is_endless(cmd: &Cmd) -> bool
    ensures { result ≡ is_endless cmd.now }
{
    cmd.scan_begin.src == FOLLOW && (cmd.convert.src == NOW || cmd.convert.src == FOLLOW)
}

fn has_forbidden(pairs: &[Forbid], cmd: &Cmd) -> bool
    ensures { result ≡ list_any (is_forbidden cmd.now) pairs.now }
{
    pairs.iter().any(|pair| is_forbidden(cmd, pair))
}

fn is_forbidden(cmd: &Cmd, pair: &Forbid) -> bool
    ensures { result ≡ is_forbidden cmd.now pair.now }
{
    source_at(cmd, pair.field) == pair.src && source_at(cmd, pair.other) == pair.other_src
}

// The source of a trigger, by the number of the trigger.
fn source_at(cmd: &Cmd, field: u8) -> u32
    ensures { result ≡ source_at cmd.now field }
{
    match field {
        0 => cmd.start.src,
        1 => cmd.scan_begin.src,
        2 => cmd.convert.src,
        3 => cmd.scan_end.src,
        _ => cmd.stop.src,
    }
}
