// How many conversions lines have together, where there is room for them.
ghost use Rattle.std.specs.Prelude.{◌≡◌, ◌≤◌, ◌<◌, ◌-◌, min, MatchResult};
ghost use Rattle.std.specs.List.{All};
ghost use Rattle.cm_expand.specs.Calls.{CanCall, plan_of};
ghost use Rattle.cm_expand.specs.Totals.{Adds, Reports, length_of, length_of_all};

use crate::call::{Call, plan_of};
use crate::conv::TooMany;
use cm_base::faults::Fault;
use cm_board::board::BoardDesc;
use cm_signal::signals::Signals;

// The most conversions of one line, and of all lines together.
const MOST_OF_ONE: u64 = 1_000_000;

const MOST_OF_ALL: u64 = 4_000_000;

/// How many conversions some lines have.
#[derive(Clone, Copy)]
pub enum Total {
    /// At most this many, the sum of what each has at most.
    AtMost(u64),
    /// This many: each was counted.
    Exactly(u64),
}

/// The total with a line more, where there is room for its conversions after those of the lines
/// before. Conversions are counted only where stop counts don't show that there is room. Once the
/// bounds of all are too high the lines before are counted too, and from then on each line, so none
/// is counted more than twice.
pub fn total_with<C: Call>(
    board: &BoardDesc,
    signals: &Signals,
    before: &[C],
    total: Total,
    line: &C,
) -> Result<Total, Fault>
    requires before { All (λ call. CanCall board.now signals.now (C.call call)) before.now }
    requires line { CanCall board.now signals.now (C.call line.now) }
    requires total { Reports total (length_of_all (λ call. plan_of board.now signals.now (C.call call)) before.now) }
    ensures { Adds (length_of_all (λ call. plan_of board.now signals.now (C.call call)) before.now) (length_of (plan_of board.now signals.now (C.call line.now))) result }
{
    match total {
        Total::AtMost(most) => match plan_of(board, signals, line).bound(room(most)) {
            Ok(more) => Ok(Total::AtMost(most + more)),
            Err(TooMany) => counted_with(board, signals, before, line),
        },
        Total::Exactly(count) => exactly_with(board, signals, count, line),
    }
}

// How many conversions there is room for in a line after so many others.
fn room(total: u64) -> u64
    requires { total ≤ 4000000 }
    ensures { result ≡ min 1000000 (4000000 - total) }
{
    MOST_OF_ONE.min(MOST_OF_ALL - total)
}

// The total with a line more, once the lines before are counted.
fn counted_with<C: Call>(
    board: &BoardDesc,
    signals: &Signals,
    before: &[C],
    line: &C,
) -> Result<Total, Fault>
    requires before { All (λ call. CanCall board.now signals.now (C.call call)) before.now }
    requires line { CanCall board.now signals.now (C.call line.now) }
    ensures { Adds (length_of_all (λ call. plan_of board.now signals.now (C.call call)) before.now) (length_of (plan_of board.now signals.now (C.call line.now))) result }
{
    match count_all(board, signals, before) {
        Ok(count) => exactly_with(board, signals, count, line),
        Err(TooMany) => Err(Fault::Limit),
    }
}

// The total with a line more after so many conversions.
fn exactly_with<C: Call>(
    board: &BoardDesc,
    signals: &Signals,
    before: u64,
    line: &C,
) -> Result<Total, Fault>
    requires before { before ≤ 4000000 }
    requires line { CanCall board.now signals.now (C.call line.now) }
    ensures { Adds before (length_of (plan_of board.now signals.now (C.call line.now))) result }
{
    match plan_of(board, signals, line).count(room(before)) {
        Ok(count) => Ok(Total::Exactly(before + count)),
        Err(TooMany) => Err(Fault::Limit),
    }
}

// How many conversions lines have together, where they aren't too many.
fn count_all<C: Call>(board: &BoardDesc, signals: &Signals, lines: &[C]) -> Result<u64, TooMany>
    requires { All (λ call. CanCall board.now signals.now (C.call call)) lines.now }
    ensures { MatchResult result (λ count. (count ≡ length_of_all (λ call. plan_of board.now signals.now (C.call call)) lines.now) × (count ≤ 4000000)) (λ _. 4000000 < length_of_all (λ call. plan_of board.now signals.now (C.call call)) lines.now) }
{
    let mut count = 0;
    for line in lines {
        count += plan_of(board, signals, line).count(MOST_OF_ALL - count)?;
    }
    Ok(count)
}
