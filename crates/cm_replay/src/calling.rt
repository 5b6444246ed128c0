// The lines that start commands.
ghost use Rattle.std.specs.Prelude.{◌≡◌, ◌<◌, ◌≤◌, ◌^◌, ◌++◌, true, length, OnOk};
ghost use Rattle.cm_board.specs.Board.{takes_commands};
ghost use Rattle.cm_replay.specs.Answers.{Rejected};
ghost use Rattle.cm_replay.specs.Calling.{cmd_reply};
ghost use Rattle.cm_replay.specs.Forms.{form};
ghost use Rattle.cm_replay.specs.Ready.{CanMove};
ghost use Rattle.cm_replay.specs.Replies.{IsReached, Replies, checked, here_at, wiring_of, tried_on};
ghost use Rattle.cm_replay.specs.Texts.{answer_text};
ghost use Rattle.cm_session.specs.declared.op.Op.TheVariants as ops;
ghost use Rattle.cm_test.specs.Questions.{tested};

use crate::at::At;
use crate::seat::Seat;
use crate::text::{put_fine, put_rejected};
use crate::trying::BoxedAccepted;
use cm_base::prover::shows;
use cm_base::transfer::NoMemory;
use cm_cmd::command::Cmd;
use cm_expand::plan::Plan;
use cm_expand::rule::rule_of;
use cm_running::command::Command;
use cm_running::text::put_count;
use cm_sub::errno::{Errno, put_refused};
use cm_sub::files::Files;
use cm_test::lists::is_valid_list;
use cm_test::test::{Accepted, command_test};
use std::alloc::Global;

/// `cmd`: starts a command that was tried before. Refused as `Files::may_use` is, with Inval
/// (`EINVAL`) where its list isn't valid, and with Again (`EAGAIN`) and the step that it fails where
/// the subdevice doesn't accept it.
pub(crate) fn call<'a>(
    alloc: Global,
    at: &At<'a>,
    cmd: &Cmd,
    tried: &'a Option<BoxedAccepted>,
    files: &mut Files,
    seat: &mut Seat<'a>,
    text: &mut Vec<u8>,
) -> Result<(), NoMemory>
    requires reached { IsReached at.now files.old }
    requires few { length cmd.now.list < 2 ^ 32 }
    requires takes { takes_commands at.now.sub.now ≡ true }
    requires its_trial { tried.now ≡ tried_on at.now.sub.now cmd.now }
    requires time { at.now.time ≤ at.now.signals.now.horizon }
    ensures { OnOk result (Replies (checked (form (ops.Cmd cmd.now) (here_at at.now files.old seat.old)) (here_at at.now files.old seat.old)) files.new seat.new text.old.items text.new.items) }
{
    if let Err(error) = files.may_use(at.file, at.index) {
        return put_refused(text, error);
    }
    if !is_valid_list(at.sub, &cmd.list) {
        return put_refused(text, Errno::Inval);
    }
    match tried {
        Some(accepted) => start(alloc, at, accepted.accepted(), files, seat, text),
        None => reject(alloc, at, cmd, text),
    }
}

// Starts a command that its subdevice accepts.
fn start<'a>(
    alloc: Global,
    at: &At<'a>,
    cmd: &'a Accepted,
    files: &mut Files,
    seat: &mut Seat<'a>,
    text: &mut Vec<u8>,
) -> Result<(), NoMemory>
    requires within { at.now.index < length files.old.claims }
    requires passed { (tested at.now.sub.now cmd.now).0 ≡ 0 }
    requires time { at.now.time ≤ at.now.signals.now.horizon }
    ensures { OnOk result (Replies (cmd_reply (here_at at.now files.old seat.old) cmd.now) files.new seat.new text.old.items text.new.items) }
{
    let sub = at.sub;
    let signals = at.signals;
    // These reads show what holds of each subdevice, and that the horizon is within its limit.
    shows(&sub.list_max);
    shows(&signals.horizon);
    let rule = rule_of(alloc, sub, cmd)?;
    let plan = Plan::new(sub, signals, cmd, at.index, at.time, None);
    seat.set_running(Some(Command::start(alloc, plan, rule)?));
    files.set_runner(at.index, Some(at.file));
    put_fine(text)
}

// Answers how a command fails its test.
fn reject(alloc: Global, at: &At<'_>, cmd: &Cmd, text: &mut Vec<u8>) -> Result<(), NoMemory>
    requires { length cmd.now.list < 2 ^ 32 }
    ensures { OnOk result (text.new.items ≡ text.old.items ++ answer_text (Rejected (tested at.now.sub.now cmd.now).0 (tested at.now.sub.now cmd.now).1)) }
{
    let mut copy = cmd.copy(alloc)?;
    let step = command_test(at.sub, &mut copy);
    put_rejected(text, step, &copy)
}

/// `insn inttrig`: gives the command its internal trigger, so that it starts now. Refused as
/// `Files::cancel` is, with Again (`EAGAIN`) where no command waits for a trigger, and with Inval
/// (`EINVAL`) where the command waits for another number.
pub(crate) fn trigger(
    alloc: Global,
    at: &At<'_>,
    number: u32,
    files: &Files,
    seat: &mut Seat<'_>,
    text: &mut Vec<u8>,
) -> Result<(), NoMemory>
    requires within { at.now.index < length files.now.claims }
    requires time { at.now.time ≤ at.now.signals.now.horizon }
    requires ready { CanMove (wiring_of at.now) at.now.index at.now.time seat.old.running }
    ensures { OnOk result (Replies (checked (form (ops.InsnIntTrig at.now.index number) (here_at at.now files.now seat.old)) (here_at at.now files.now seat.old)) files.now seat.new text.old.items text.new.items) }
{
    if let Err(error) = files.claim(at.index).may_cancel(at.file) {
        return put_refused(text, error);
    }
    let Some(command) = &mut seat.running else {
        return put_refused(text, Errno::Again);
    };
    if !command.waits(at.time) {
        return put_refused(text, Errno::Again);
    }
    if !command.takes_number(number) {
        return put_refused(text, Errno::Inval);
    }
    command.trigger(alloc, at.time)?;
    put_count(text, 1)
}
