// The command test: five steps, in the order in which Comedi's drivers take them.
ghost use Rattle.std.specs.Prelude.{◌≡◌, ◌<◌, ◌^◌, length};
ghost use Rattle.cm_test.specs.Questions.{tested};
ghost use Rattle.cm_test.specs.Accepts.{Accepts};

use crate::limits::repair;
use crate::lists::is_valid_list;
use crate::sources::{is_compatible, narrow};
use crate::times::round;
use cm_board::board::Sub;
use cm_cmd::command::Cmd;
use std::marker::Model;

/// The first step that a command fails on a subdevice, or 0 where the subdevice takes it (Comedi: a
/// driver's `do_cmdtest`, after `comedi_command_test`). The command is left as that step leaves it:
/// 1 leaves each trigger only sources that the subdevice has, 2 changes nothing, 3 moves each
/// argument to the nearest one in its limits, which are about the line of an external one and not
/// about the edges that it asks for, and of a timed scan also about the time for each entry of the list
/// and, where the subdevice asks for that, for its conversions; 4 rounds times to ones that the board can
/// make, in the subdevice's own way or else in that of the flags, and within their limits, and gives a scan the time
/// for its conversions, 5 changes nothing. A command that step 4 has changed fails step 5 at most. It
/// takes no memory.
pub fn command_test(sub: &Sub, cmd: &mut Cmd) -> u8
    requires { length cmd.old.list < 2 ^ 32 }
    ensures { (result, cmd.new) ≡ tested sub.now cmd.old }
{
    // Step 1: each trigger has a source, and only such as the subdevice has.
    if !narrow(sub, cmd) {
        return 1;
    }
    // Step 2: each trigger has one source, and these may stand together.
    if !is_compatible(sub, cmd) {
        return 2;
    }
    // Step 3: each argument is within its limits.
    if !repair(sub, cmd) {
        return 3;
    }
    // Step 4: each time can be made, and a scan has the time for its conversions.
    if !round(sub, cmd) {
        return 4;
    }
    // Step 5: the channel list.
    if !is_valid_list(sub, &cmd.list) {
        return 5;
    }
    0
}

/// A command that passed the test of its subdevice, as `accept` makes it. Contracts see the command.
#[derive(Drop)]
pub struct Accepted {
    cmd: Cmd,
}

impl Model for Accepted {
    ghost use Rattle.cm_cmd.specs.Command.{CmdText};

    ghost Value = { CmdText };

    ghost view = { λ accepted. accepted.cmd };
}

impl Accepted {
    ghost use Rattle.std.specs.Prelude.{◌≡◌};

    /// The command.
    pub fn cmd(&self) -> &Cmd
        ensures { result.now ≡ self.now }
    {
        &self.cmd
    }
}

/// Accepts a command that passes the test of a subdevice, unchanged. Else reports the step that fails,
/// with the command as the test left it. It takes no memory.
pub fn accept(sub: &Sub, cmd: Cmd) -> Result<Accepted, (u8, Cmd)>
    requires { length cmd.list < 2 ^ 32 }
    ensures { Accepts result cmd (tested sub.now cmd) }
{
    let mut cmd = cmd;
    match command_test(sub, &mut cmd) {
        0 => Ok(Accepted { cmd }),
        step => Err((step, cmd)),
    }
}
