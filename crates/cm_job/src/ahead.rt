// Outputs that come later than the samples which they are made from.
ghost use Rattle.std.specs.Prelude.{◌≡◌, ◌≤◌, ◌<◌, ◌^◌, true, length, IfSome};
ghost use Rattle.cm_expand.specs.Timing.{IsTiming, times};
ghost use Rattle.cm_expand.specs.TimingView.{converts_text, timing_text};
ghost use Rattle.cm_expand.specs.Items.{items_of};
ghost use Rattle.cm_expand.specs.PlanView.{plan_text};
ghost use Rattle.cm_job.specs.Later as spec;
ghost use Rattle.cm_job.specs.Pace.{IsGap, IsPace};

use cm_expand::board::Board;
use cm_expand::plan::Plan;
use cm_expand::timing::{Begins, Converts, Timing};

/// The most conversions of a command.
pub(crate) const MOST: u64 = 1_000_000;

// How far apart the scans of a timing begin, and the conversions of a scan come.
#[derive(Clone, Copy)]
struct Pace {
    period: u64,
    gap: u64,
}

/// Whether each conversion of an output comes later than the input's of the same place, as far as
/// both have one.
pub(crate) fn is_ahead(input: Plan<'_>, output: Plan<'_>) -> bool
    requires { length (items_of (plan_text input)) ≤ 1000000 }
    ensures { result ≡ spec.are_later (items_of (plan_text input.entry)) (items_of (plan_text output.entry)) }
{
    if are_even_later(&input, &output) {
        return true;
    }
    walks_ahead(input, output)
}

// Whether both run at the same pace and the output starts later, as in most loops: then it is ahead,
// however many conversions there are. A false leaves the question open.
fn are_even_later(input: &Plan<'_>, output: &Plan<'_>) -> bool
    ensures { result ≡ true → spec.are_later (items_of (plan_text input.now)) (items_of (plan_text output.now)) ≡ true }
{
    let Some(one) = input.timing() else {
        return false;
    };
    let Some(other) = output.timing() else {
        return false;
    };
    is_even_later(&one, &other)
}

// The same of the timings of both.
fn is_even_later(one: &Timing<'_>, other: &Timing<'_>) -> bool
    requires one { IsTiming (timing_text one.now) }
    requires other { IsTiming (timing_text other.now) }
    ensures { result ≡ true → spec.are_sooner (times (timing_text one.now)) (times (timing_text other.now)) ≡ true }
{
    let Some(pace) = pace_of(one) else {
        return false;
    };
    let Some(other_pace) = pace_of(other) else {
        return false;
    };
    if pace.period != other_pace.period || pace.gap != other_pace.gap {
        return false;
    }
    one.per_scan == other.per_scan && one.start < other.start
}

// The pace of a timing that asks for no scan which could be missing or cut.
fn pace_of(timing: &Timing<'_>) -> Option<Pace>
    requires { IsTiming (timing_text timing.now) }
    ensures { IfSome result (λ pace. IsPace (timing_text timing.now) pace.period pace.gap) }
{
    let Begins::Every(period) = timing.begins else {
        return None;
    };
    let gap = gap_of(timing)?;
    let scan_length = u64::from(timing.per_scan) * gap;
    let all_but_last = (timing.most - 1).checked_mul(period)?;
    let last_begin = timing.start.checked_add(all_but_last)?;
    let end = last_begin.checked_add(scan_length)?;
    if scan_length <= period && end < timing.until {
        Some(Pace { period, gap })
    } else {
        None
    }
}

// How far apart the conversions of a scan are, where no edges decide it.
fn gap_of(timing: &Timing<'_>) -> Option<u64>
    requires { IsTiming (timing_text timing.now) }
    ensures gap { IfSome result (λ gap. IsGap (converts_text timing.now.converts) gap) }
    ensures small { IfSome result (λ gap. gap < 2 ^ 32) }
{
    match timing.converts {
        Converts::AtOnce => Some(0),
        Converts::Spaced(gap) => Some(gap),
        Converts::PerEdge(_) => None,
    }
}

// The same for any two expansions, whose times it walks through without keeping them.
fn walks_ahead(input: Plan<'_>, output: Plan<'_>) -> bool
    requires { length (items_of (plan_text input)) ≤ 1000000 }
    ensures { result ≡ spec.are_later (items_of (plan_text input.entry)) (items_of (plan_text output.entry)) }
{
    let mut inputs = Board::new(input);
    let mut outputs = Board::new(output);
    for _ in 0..MOST {
        let Some(sample) = inputs.next_time() else {
            return true;
        };
        let Some(put) = outputs.next_time() else {
            return true;
        };
        if put <= sample {
            return false;
        }
        inputs.pass();
        outputs.pass();
    }
    true
}
