// Commands that are called at a time over a board and its signals.
ghost use Rattle.std.specs.Prelude.{◌≡◌, ◌<◌, ◌≤◌, length};
ghost use Rattle.cm_test.specs.Accepting.{sub_at};
ghost use Rattle.cm_test.specs.Questions.{tested};
ghost use Rattle.cm_expand.specs.Calls as spec;
ghost use Rattle.cm_expand.specs.PlanView.{plan_text};

use crate::plan::Plan;
use cm_board::board::BoardDesc;
use cm_signal::signals::Signals;
use cm_test::test::Accepted;

/// What asks for a command that its subdevice accepts, called at a time.
pub trait Call {
    /// The command, and when it is called.
    ghost call: { Self → spec.CallText };

    /// When the command is called, in nanoseconds.
    fn call_time(&self) -> u64
        ensures { result ≡ (call self.now).t0 };

    /// The command.
    fn command(&self) -> &Accepted
        ensures { result.now ≡ (call self.now).cmd };
}

/// The plan of what is asked.
pub fn plan_of<'a, C: Call>(board: &'a BoardDesc, signals: &'a Signals, call: &'a C) -> Plan<'a>
    requires { spec.CanCall board.now signals.now (C.call call.now) }
    ensures { plan_text result ≡ spec.plan_of board.now signals.now (C.call call.now) }
{
    plan_at(board, signals, call.call_time(), call.command())
}

/// The plan of a command that its subdevice accepts and that is called at `t0` nanoseconds.
pub fn plan_at<'a>(
    board: &'a BoardDesc,
    signals: &'a Signals,
    t0: u64,
    cmd: &'a Accepted,
) -> Plan<'a>
    requires within { cmd.now.sub < length board.now.subs }
    requires passes { (tested (sub_at board.now cmd.now.sub) cmd.now).0 ≡ 0 }
    requires time { t0 ≤ signals.now.horizon }
    ensures { plan_text result ≡ spec.plan_at board.now signals.now t0 cmd.now }
{
    let index = sub_of(cmd);
    let sub = &board.subs[index as usize];
    Plan::new(sub, signals, cmd, index, t0, None)
}

/// The number of a command's subdevice.
pub fn sub_of(cmd: &Accepted) -> u32
    ensures { result ≡ cmd.now.sub }
{
    let cmd = cmd.cmd();
    cmd.sub
}
