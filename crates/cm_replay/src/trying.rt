// Commands that are tried on their subdevices before a session starts, so that they live as long as
// it does. The test looks at no state, so nothing is different when their lines come.
ghost use Rattle.std.specs.Prelude.{◌≡◌, ◌<◌, ◌^◌, true, length, map, IfOk};
ghost use Rattle.std.specs.List.{All};
ghost use Rattle.cm_board.specs.Board.{takes_commands};
ghost use Rattle.cm_test.specs.Accepting.{sub_at};
ghost use Rattle.cm_replay.specs.Replies.{tried_of, tried_on};
ghost use Rattle.cm_session.specs.Limits.{HasLimits};

use cm_base::transfer::NoMemory;
use cm_board::board::{BoardDesc, Sub};
use cm_cmd::command::Cmd;
use cm_session::op::{Op, SessionLine};
use cm_test::test::{Accepted, accept};
use std::alloc::{AllocError, Global};
use std::marker::Model;

/// An accepted command in a box, so that a place for one is small. Contracts see the command.
#[derive(Drop)]
pub struct BoxedAccepted {
    cmd: Box<Accepted>,
}

impl Model for BoxedAccepted {
    ghost use Rattle.cm_cmd.specs.Command.{CmdText};

    ghost Value = { CmdText };

    ghost view = { λ boxed. boxed.cmd.value };
}

impl BoxedAccepted {
    /// Puts a command into a box.
    pub fn new(alloc: Global, cmd: Accepted) -> Result<BoxedAccepted, AllocError>
        ensures { IfOk result (λ boxed. boxed ≡ cmd) }
    {
        Ok(BoxedAccepted {
            cmd: Box::new(alloc, cmd)?,
        })
    }

    /// The command.
    pub fn accepted(&self) -> &Accepted
        ensures { result.now ≡ self.now }
    {
        &self.cmd
    }
}

/// The commands of the lines that their subdevices accept, one place for each line.
pub(crate) fn try_all(
    alloc: Global,
    board: &BoardDesc,
    lines: &[SessionLine],
) -> Result<Vec<Option<BoxedAccepted>>, NoMemory>
    requires { All (λ line. HasLimits line.op) lines.now }
    ensures { IfOk result (λ tried. tried.items ≡ map (λ line. tried_of board.now line.op) lines.now) }
{
    let mut all = Vec::new(alloc);
    for line in lines {
        all.push(try_line(alloc, board, &line.op)?)?;
    }
    Ok(all)
}

/// The command of a line, where its subdevice accepts it.
pub fn try_line(
    alloc: Global,
    board: &BoardDesc,
    op: &Op,
) -> Result<Option<BoxedAccepted>, NoMemory>
    requires { HasLimits op.now }
    ensures { IfOk result (λ tried. tried ≡ tried_of board.now op.now) }
{
    match op {
        Op::Cmd { cmd } => try_cmd(alloc, board, cmd.cmd()),
        _ => Ok(None),
    }
}

// The command, where the board's subdevice accepts it.
fn try_cmd(alloc: Global, board: &BoardDesc, cmd: &Cmd) -> Result<Option<BoxedAccepted>, NoMemory>
    requires { length cmd.now.list < 2 ^ 32 }
    ensures { IfOk result (λ tried. tried ≡ tried_on (sub_at board.now cmd.now.sub) cmd.now) }
{
    match board.subs.get(cmd.sub as usize) {
        Some(sub) if sub.takes_commands() => try_on(alloc, sub, cmd),
        _ => Ok(None),
    }
}

// The command, where a subdevice that takes commands accepts it.
fn try_on(alloc: Global, sub: &Sub, cmd: &Cmd) -> Result<Option<BoxedAccepted>, NoMemory>
    requires takes { takes_commands sub.now ≡ true }
    requires few { length cmd.now.list < 2 ^ 32 }
    ensures { IfOk result (λ tried. tried ≡ tried_on sub.now cmd.now) }
{
    match accept(sub, cmd.copy(alloc)?) {
        Ok(accepted) => Ok(Some(BoxedAccepted::new(alloc, accepted)?)),
        Err(_) => Ok(None),
    }
}
