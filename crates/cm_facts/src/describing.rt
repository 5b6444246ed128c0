// What a text says of its board and of its signals.
ghost use Rattle.std.specs.Prelude.{◌≡◌, ◌-◌, ◌<◌, ◌≤◌, ◌^◌, length, IfOk};
ghost use Rattle.cm_base.specs.ReadStop.{Gives};
ghost use Rattle.cm_facts.specs.Described as spec;

use crate::signal_facts::put_signals;
use crate::sub_facts::put_board;
use crate::whole::{has_part, whole_text};
use cm_base::faults::ReadStop;
use cm_base::lines::split_lines;
use cm_base::transfer::NoMemory;
use cm_board::board::BoardDesc;
use cm_board_text::reading::read_board;
use cm_signal::signals::Signals;
use cm_signal_text::reading::read_signals;
use std::alloc::Global;

/// Returns the facts of a text: of its board, and of its signals if it has some. The text may end after
/// its board or its signals. A line that the core's readers refuse is refused as they do.
pub fn describe(alloc: Global, text: Vec<u8>) -> Result<Vec<u8>, ReadStop>
    requires { length text.items ≤ 1048576 }
    ensures { Gives (λ facts. facts.items) result (spec.described text.items) }
{
    let with_signals = has_part(alloc, b"signals", &text)?;
    let whole = whole_text(alloc, text)?;
    let (board, signals) = read_setting(alloc, &whole)?;
    let facts = facts_of(alloc, with_signals, &board, &signals)?;
    Ok(facts)
}

// Returns the board and the signals of a text up to its session.
fn read_setting(alloc: Global, text: &[u8]) -> Result<(BoardDesc, Signals), ReadStop>
    requires { length text.now < 2 ^ 32 - 1 }
    ensures { Gives (λ s. record { board = s.0; signals = s.1 }) result (spec.setting_of text.now) }
{
    let lines = split_lines(alloc, text)?;
    let (board, at) = read_board(alloc, &lines)?;
    let (signals, _) = read_signals(alloc, &board, &lines, at)?;
    Ok((board, signals))
}

// Returns the facts of a board, and of its signals if they are asked for.
fn facts_of(
    alloc: Global,
    with_signals: bool,
    board: &BoardDesc,
    signals: &Signals,
) -> Result<Vec<u8>, NoMemory>
    ensures { IfOk result (λ facts. facts.items ≡ spec.facts_of with_signals (record { board = board.now; signals = signals.now })) }
{
    let mut facts = Vec::new(alloc);
    put_board(&mut facts, board)?;
    if with_signals {
        put_signals(&mut facts, signals)?;
    }
    Ok(facts)
}
