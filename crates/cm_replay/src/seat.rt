// A subdevice in a session.

use cm_running::command::Command;
use cm_sub::state::SubState;
use std::marker::Model;
use std::mem;

/// What a subdevice keeps between instructions, and its command where one runs.
#[derive(Drop)]
pub struct Seat<'a> {
    pub state: SubState,
    pub running: Option<Command<'a>>,
}

impl<'a> Model for Seat<'a> {
    ghost use Rattle.cm_replay.specs.State.{Device};

    ghost Value = { Device };

    ghost use Rattle.cm_replay.specs.SeatView.{device_of};

    ghost view = { device_of };
}

impl<'a> Seat<'a> {
    ghost use Rattle.std.specs.Prelude.{◌≡◌};

    /// Has another command run, or none. The one that ran is dropped.
    pub(crate) fn set_running(&mut self, running: Option<Command<'a>>)
        ensures { self.new ≡ record self.old { running = running.entry } }
    {
        drop(mem::replace(&mut self.running, running));
    }
}
