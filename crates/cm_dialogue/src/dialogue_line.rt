// What a line of a dialogue says.

use crate::asked::{Asked, Fetch};
use cm_session::op::{BoxedCmd, SessionLine};

/// What a line says.
#[derive(Drop)]
pub enum DialogueLine {
    /// A line of a session.
    Session(SessionLine),
    /// A question about a subdevice.
    Question(Asked),
    /// An await and the codes after it.
    Fetch(Fetch),
    /// What has no time, and changes nothing.
    Untimed(Untimed),
}

/// A question that has no time, and changes nothing.
#[derive(Drop)]
pub enum Untimed {
    /// The test of a command as text (Comedi: `comedi_command_test`).
    Test(BoxedCmd),
    /// The test of a command in numbers (Comedi: `COMEDI_CMDTEST`).
    CmdTest(BoxedCmd),
    /// The board as text.
    Describe,
    /// Its subdevices in numbers (Comedi: `comedi_subdinfo` and its kin).
    Subdevices,
    /// Who has each subdevice (Comedi: `lock` and `busy` of `struct comedi_subdevice`).
    Claims,
}
