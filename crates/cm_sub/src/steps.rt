// The kinds of step on the turns. These types are for the proofs alone.
ghost use Rattle.cm_sub.specs.Turns.{TakesTurn, StowsSlot, FetchesSlot, ReturnsTurn, first_view};

use crate::state::SubState;
use crate::turns::SeatView;
use atomic_table::{Play, Split};

/// The turn of a place is made out: the seat gets the place, or is turned away.
pub struct TakeTurn;

impl Play<Option<SubState>, SeatView> for TakeTurn {
    ghost then = { TakesTurn };
}

/// The empty slot of a place that the seat holds goes back to the table.
pub struct StowSlot;

impl Play<Option<SubState>, SeatView> for StowSlot {
    ghost then = { StowsSlot };
}

/// The empty slot of a place that the seat holds comes to the seat.
pub struct FetchSlot;

impl Play<Option<SubState>, SeatView> for FetchSlot {
    ghost then = { FetchesSlot };
}

/// The turn of a place that the seat holds is made home.
pub struct ReturnTurn;

impl Play<Option<SubState>, SeatView> for ReturnTurn {
    ghost then = { ReturnsTurn };
}

/// A seat that holds nothing comes off a seat, which stays as it is.
pub struct SplitSeat;

impl Split<SeatView> for SplitSeat {
    ghost left = { λ view. view };

    ghost right = { λ view. first_view view.channels };
}
