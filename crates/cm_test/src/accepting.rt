// Commands that the subdevices of a board accept.
ghost use Rattle.std.specs.Prelude.{◌≡◌, ◌≤◌, length, IfOk};
ghost use Rattle.cm_base.specs.Reading.{seen};
ghost use Rattle.cm_test.specs.Accepting as spec;
ghost use Rattle.cm_test.specs.Questions.{tested};

use crate::test::{Accepted, accept};
use cm_base::faults::Fault;
use cm_board::board::{BoardDesc, Sub};
use cm_cmd::command::Cmd;

/// A command that its subdevice accepts. It is Bad where there is no such subdevice, and where the
/// command doesn't pass its test.
pub fn accepted(board: &BoardDesc, cmd: Cmd) -> Result<Accepted, Fault>
    requires { length cmd.list ≤ 1024 }
    ensures { result ≡ spec.accepted board.now cmd }
{
    let sub = numbered_sub(board, cmd.sub)?;
    passed(sub, cmd)
}

/// The subdevice with this number. It is Bad where there is none.
pub fn numbered_sub(board: &BoardDesc, number: u32) -> Result<&Sub, Fault>
    ensures { seen (λ sub. sub.now) result ≡ spec.numbered_sub board.now number }
{
    let index = number as usize;
    if index < board.subs.len() {
        Ok(&board.subs[index])
    } else {
        Err(Fault::Bad)
    }
}

/// A command that passes the test of a subdevice. It is Bad where it doesn't.
pub fn passed(sub: &Sub, cmd: Cmd) -> Result<Accepted, Fault>
    requires { length cmd.list ≤ 1024 }
    ensures value { result ≡ spec.passed sub.now cmd }
    ensures passes { IfOk result (λ cmd. (tested sub.now cmd).0 ≡ 0) }
{
    match accept(sub, cmd) {
        Ok(cmd) => Ok(cmd),
        Err(_) => Err(Fault::Bad),
    }
}
