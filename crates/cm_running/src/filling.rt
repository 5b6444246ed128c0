// Samples on their way from a board into a ring.
ghost use Rattle.std.specs.Prelude.{◌≡◌, ◌+◌, ◌<◌, ◌^◌, length, drop};
ghost use Rattle.cm_ring_core.specs.Local.{IsLevel};
ghost use Rattle.cm_running.specs.Filling.{moving, filled};

use crate::handing::HandsOver;
use crate::pending::Pending;
use cm_ring_core::local::LocalRing;

// How many samples are moved at once.
const PIECE: usize = 64;

/// Moves the conversions that have come by a time into a ring, one after the other, while there is
/// room.
pub fn fill(ring: &mut LocalRing, board: &mut Pending<'_>, time: u64)
    requires level { IsLevel ring.old }
    requires places { ring.old.a + length board.old.conversions < 2 ^ 62 }
    ensures ring { ring.new ≡ filled ring.old board.old.conversions time }
    ensures board { board.new ≡ record board.old { conversions = drop (moving ring.old board.old.conversions time) board.old.conversions } }
{
    let mut words = [0; PIECE];
    while ring.room() > 0 {
        let most = (ring.room() as usize).min(PIECE);
        let count = board.take_by(time, &mut words[..most]);
        ring.push_all(&words[..count]);
        if count < most {
            break;
        }
    }
}
