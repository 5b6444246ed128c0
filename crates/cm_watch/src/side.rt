// What the threads of a watched line have.
ghost use Rattle.std.specs.Prelude.{◌≡◌};
ghost use Rattle.cm_client.specs.Served.{HasServed};
ghost use Rattle.cm_client.specs.Streamed.{EndsTruly};
ghost use Rattle.cm_sub.specs.Owning.{Holds};

use cm_base::gate::Gate;
use cm_base::prover::shows;
use cm_client::paced::PacedBoard;
use cm_client::waiting::Waiting;
use cm_client::words::Words;
use cm_ring::munger::Munger;
use cm_ring::writer::Closed;
use cm_sample::planned::Planned;
use cm_sub::owners::{OwnerSeat, Owners};
use std::sync::Wait;

/// A line's board with the number of its subdevice, and the owners of all subdevices. It puts its words only while a
/// seat of these owners holds the subdevice.
#[derive(Drop)]
pub struct LineBoard<'o, P: Planned, W: Words> {
    board: PacedBoard<P, W>,
    sub: u32,
    owners: &'o Owners,
}

impl<'o, P: Planned, W: Words> LineBoard<'o, P, W> {
    /// The board of this subdevice, which these owners have.
    pub(crate) fn new(board: PacedBoard<P, W>, sub: u32, owners: &'o Owners) -> LineBoard<'o, P, W>
        ensures sub { result.sub ≡ sub }
        ensures owners { result.owners.now ≡ owners.entry.now }
    {
        LineBoard { board, sub, owners }
    }

    /// The number of the subdevice.
    pub(crate) fn sub(&self) -> u32
        ensures { result ≡ self.now.sub }
    {
        self.sub
    }

    /// Puts all words while a seat of the owners holds the subdevice, and ends with `Done`, or ends with `Cancelled`
    /// when a look found the stop. It waits in the way that it is given, as `put_all` does, and gives it back.
    pub(crate) fn put_while<R: Wait + Sync, S: Waiting, G: Gate>(
        self,
        rt: &R,
        seat: &OwnerSeat,
        waiting: S,
        gate: &G,
        who: u32,
    ) -> (Closed<P>, S)
        requires of { seat.now.owners ≡ self.owners.now }
        requires holds { Holds self.sub seat.now.holds }
        ensures of { result.0.ring ≡ self.entry.board }
        ensures end { EndsTruly result.0 }
        ensures served { HasServed S.has_handed_on S.has_waited S.has_ended 0 result.0.end.count waiting result.1 }
    {
        shows(seat);
        self.board.put_all(rt, waiting, gate, who)
    }
}

/// A line's board and munger, which have threads of their own.
#[derive(Drop)]
pub struct BoardSide<'o, P: Planned, W: Words> {
    pub board: LineBoard<'o, P, W>,
    pub munger: Munger<P>,
}
