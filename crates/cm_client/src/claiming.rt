// The subdevices of the lines that stream, each of which one thread has at a time.
ghost use Rattle.std.specs.Prelude.{◌≡◌, ◌<◌, [], ◌∷◌, length, map, slice_index, IfOk};
ghost use Rattle.cm_sub.specs.Owning.{channel_count};
ghost use Rattle.cm_client.specs.Idle.{IsIdle};

use cm_base::transfer::NoMemory;
use cm_board::board::Sub;
use cm_sub::owners::{OwnerSeat, Owners};
use cm_sub::state::SubState;
use crossbeam_utils::Backoff;
use std::alloc::Global;
use std::sync::Wait;

/// Claims a subdevice, again and again while it is busy.
pub fn claim_waiting<R: Wait + Sync>(
    rt: &R,
    owners: &Owners,
    seat: &mut OwnerSeat,
    sub: u32,
) -> SubState
    requires idle { IsIdle owners.now seat.old }
    requires place { sub < length owners.now.channels }
    ensures of { seat.new.owners ≡ owners.now }
    ensures holds { seat.new.holds ≡ sub ∷ [] }
    ensures state { channel_count result ≡ slice_index owners.now.channels sub }
{
    let backoff = Backoff::new();
    for _ in rt.forever() {
        if let Ok(state) = owners.claim(seat, sub) {
            return state;
        }
        backoff.snooze();
    }
    unreachable!()
}

/// The first states of subdevices: each of as many channels as its subdevice has.
pub fn states_of(alloc: Global, subs: &[Sub]) -> Result<Vec<SubState>, NoMemory>
    ensures count { IfOk result (λ v. length v.items ≡ length subs.now) }
    ensures channels { IfOk result (λ v. map channel_count v.items ≡ map (λ sub. sub.channels) subs.now) }
{
    let mut states = Vec::new(alloc);
    for i in 0..subs.len() {
        let sub = &subs[i];
        states.push(SubState::new(alloc, sub.channels)?)?;
    }
    Ok(states)
}

/// A seat for a line's own thread.
pub fn another_seat(owners: &Owners, seat: &mut OwnerSeat) -> OwnerSeat
    requires { IsIdle owners.now seat.old }
    ensures old { IsIdle owners.now seat.new }
    ensures new { IsIdle owners.now result }
{
    owners.split(seat)
}
