// What bounds the words of the lines after the signals.

use crate::signals::Signals;
use cm_board::board::BoardDesc;

/// What bounds the words of the lines after the signals.
#[derive(Clone, Copy)]
pub struct Bounds {
    /// The last nanosecond.
    pub horizon: u64,
    /// The version of the board's text, on which it depends how many entries the list of a command
    /// may have.
    pub version: u32,
}

impl Bounds {
    ghost use Rattle.std.specs.Prelude.{◌≡◌};
    ghost use Rattle.cm_signal.specs.Bounds.{bounds_of};

    /// Those that a board and its signals set.
    pub fn of(board: &BoardDesc, signals: &Signals) -> Bounds
        ensures { result ≡ bounds_of board.now signals.now }
    {
        Bounds {
            horizon: signals.horizon,
            version: board.version,
        }
    }
}
