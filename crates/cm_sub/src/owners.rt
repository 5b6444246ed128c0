// Subdevices that threads share: whoever holds one has what it keeps, and nobody else does.
use crate::state::SubState;
use crate::steps::{FetchSlot, ReturnTurn, SplitSeat, StowSlot, TakeTurn};
use crate::turns::{Channels, SeatView, Turns};
use atomic_table::{Seat, Table};
use cm_base::transfer::NoMemory;
use std::alloc::Global;
use std::marker::Model;

/// The places of the subdevices that threads share, counted from 0. A place that nobody holds keeps
/// its subdevice's state. No call but `open` takes memory, and none waits.
#[derive(Drop)]
pub struct Owners {
    table: Table<Option<SubState>, SeatView, Channels, Turns, Global>,
}

impl Model for Owners {
    ghost use Rattle.cm_sub.specs.Owning.{OwnersText};

    ghost Value = { OwnersText };

    ghost use Rattle.cm_sub.specs.OwnersView.{owners_of, IsSoundOwners};

    ghost view = { λ o. owners_of o.table.shared.table_id o.table.shared.key.counts.items };

    ghost invariant = { λ o. IsSoundOwners o.table.shared.table_id o.table.shared.key.counts.items };
}

/// What a thread claims places with. A seat that is dropped keeps what it holds for good.
#[derive(Drop)]
pub struct OwnerSeat {
    seat: Seat<Option<SubState>, SeatView>,
}

impl Model for OwnerSeat {
    ghost use Rattle.cm_sub.specs.Owning.{SeatText};

    ghost Value = { SeatText };

    ghost use Rattle.cm_sub.specs.OwnersView.{seat_of, IsSoundSeat};

    ghost view = { λ s. seat_of s.seat.table_id s.seat.me.0 };

    ghost invariant = { λ s. IsSoundSeat s.seat.me };
}

/// Another seat holds the place.
#[derive(Clone, Copy, Debug, PartialEq, Eq)]
pub struct Busy;

impl Owners {
    ghost use Rattle.std.specs.Prelude.{◌≡◌, ◌+◌, ◌<◌, length, map, slice_index, IfOk, OnOk, OnErr};
    ghost use Rattle.cm_sub.specs.Owning.{channel_count, Holds, new_seat, refused_at, with_place, without_place};

    /// A place for each state, with a first seat that holds none of them. A place has its state's
    /// channels for good. NoMemory where memory runs out.
    pub fn open(alloc: Global, states: Vec<SubState>) -> Result<(Owners, OwnerSeat), NoMemory>
        requires { 0 < length states.items }
        ensures places { IfOk result (λ opened. opened.0.channels ≡ map channel_count states.items) }
        ensures seat { IfOk result (λ opened. opened.1 ≡ new_seat opened.0) }
    {
        let mut counts = Vec::new(alloc);
        let mut slots = Vec::new(alloc);
        for state in states {
            counts.push(state.values.len() as u64)?;
            slots.push(Some(state))?;
        }
        let words = Vec::from_elem(alloc, 0u64, counts.len())?;
        let channels = Channels { counts };
        match Table::new(alloc, words.as_slice(), slots, &channels) {
            Ok((table, seat)) => Ok((Owners { table }, OwnerSeat { seat })),
            Err(_) => Err(NoMemory),
        }
    }

    /// Another seat, which holds nothing. What `seat` holds stays.
    pub fn split(&self, seat: &mut OwnerSeat) -> OwnerSeat
        requires { seat.old.owners ≡ self.now }
        ensures old { seat.new ≡ seat.old }
        ensures new { result ≡ new_seat self.now }
    {
        let seat = self.table.shared.split_seat::<SplitSeat>(&mut seat.seat);
        OwnerSeat { seat }
    }

    /// Takes a place, with the state that its last owner left. Busy where an exchange in this call
    /// finds the place's turn out: another seat holds it. Then this seat holds what it held.
    pub fn claim(&self, seat: &mut OwnerSeat, sub: u32) -> Result<SubState, Busy>
        requires of { seat.old.owners ≡ self.now }
        requires place { sub < length self.now.channels }
        requires free { ¬ Holds sub seat.old.holds }
        ensures state { IfOk result (λ state. channel_count state ≡ slice_index self.now.channels sub) }
        ensures ok { OnOk result (seat.new ≡ with_place sub seat.old) }
        ensures err { OnErr result (seat.new ≡ refused_at sub seat.old) }
        ensures rose { OnErr result (slice_index seat.new.refused sub ≡ slice_index seat.old.refused sub + 1) }
    {
        let shared = &self.table.shared;
        let place = sub as usize;
        if shared.swap::<TakeTurn>(&mut seat.seat, place, 1) != 0 {
            return Err(Busy);
        }
        let taken = shared.exchange(&mut seat.seat, place, None);
        shared.load::<StowSlot>(&mut seat.seat, place);
        match taken {
            Some(state) => Ok(state),
            None => unreachable!(),
        }
    }

    /// Gives up a place, and leaves a state of its channels for the next owner.
    pub fn give_back(&self, seat: &mut OwnerSeat, sub: u32, state: SubState)
        requires of { seat.old.owners ≡ self.now }
        requires place { sub < length self.now.channels }
        requires held { Holds sub seat.old.holds }
        requires state { channel_count state ≡ slice_index self.now.channels sub }
        ensures { seat.new ≡ without_place sub seat.old }
    {
        let shared = &self.table.shared;
        let place = sub as usize;
        shared.load::<FetchSlot>(&mut seat.seat, place);
        let empty = shared.exchange(&mut seat.seat, place, Some(state));
        shared.swap::<ReturnTurn>(&mut seat.seat, place, 0);
        drop(empty);
    }
}
