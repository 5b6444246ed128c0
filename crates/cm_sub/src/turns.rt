// The turns of the places that threads share, and the rule that holds between any two steps.
use crate::state::SubState;
use atomic_table::TableRule;
use std::collections::LinkedList;

/// What a seat knows. No value of it is made: proofs alone speak of it.
pub struct SeatView {
    /// The places that it holds.
    pub holds: LinkedList<u64>,
    /// How often it found each place's turn out.
    pub refused: LinkedList<u64>,
    /// How many channels each place has.
    pub channels: LinkedList<u64>,
    /// One more than the place whose slot is with the seat in the middle of a call, and 0 otherwise.
    pub hand: u64,
}

/// How many channels each place has, which is fixed when the places are opened.
#[derive(Drop)]
pub struct Channels {
    pub counts: Vec<u64>,
}

/// The rule of the turns: word k of the table is the turn of place k, 0 at home and 1 out, and slot
/// k holds the state of place k while its turn is at home.
pub struct Turns;

impl TableRule<Option<SubState>, SeatView, Channels> for Turns {
    ghost use Rattle.cm_sub.specs.Turns.{AreInTurn, first_view};

    ghost holds = { λ key. AreInTurn key.counts.items };

    ghost first = { λ key. first_view key.counts.items };
}
