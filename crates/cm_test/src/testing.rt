// Answers to commands that are tested.
ghost use Rattle.std.specs.Prelude.{◌≡◌, ◌++◌, ◌≤◌, length, IfErr, IfOk, OnOk, Ok, Err};
ghost use Rattle.std.specs.Result.{result_err};
ghost use Rattle.cm_sub.specs.Checks.{first_refusal};
ghost use Rattle.cm_test.specs.Accepting.{sub_at};
ghost use Rattle.cm_test.specs.Testing.{test_answer, test_checks, test_text, tested_on};

use crate::test::command_test;
use cm_base::numbers::put_u64;
use cm_base::transfer::NoMemory;
use cm_board::board::{BoardDesc, Sub};
use cm_cmd::command::Cmd;
use cm_cmd::printing::put_cmd;
use cm_sub::errno::{Errno, put_refused};
use std::alloc::Global;

// The subdevice that is to take a command.
fn commanded(board: &BoardDesc, number: u32) -> Result<&Sub, Errno>
    ensures refusal { result_err result ≡ first_refusal (test_checks board.now number) }
    ensures sub { IfOk result (λ sub. sub.now ≡ sub_at board.now number) }
{
    let index = number as usize;
    if index >= board.subs.len() {
        return Err(Errno::NoDev);
    }
    let sub = &board.subs[index];
    if !sub.takes_commands() {
        return Err(Errno::Io);
    }
    Ok(sub)
}

/// Tests a command on its subdevice: the step that it fails, or 0, and the command is left as the test leaves
/// it (Comedi: `comedi_command_test`). It is refused with NoDev (`ENODEV`) where there is no such
/// subdevice, and then with Io (`EIO`) where that takes no commands, and is left as it was.
pub fn test_on(board: &BoardDesc, cmd: &mut Cmd) -> Result<u8, Errno>
    requires { length cmd.old.list ≤ 1024 }
    ensures tested { IfOk result (λ step. tested_on board.now cmd.old ≡ Ok (step, cmd.new)) }
    ensures refused { IfErr result (λ error. tested_on board.now cmd.old ≡ Err error) }
    ensures same { IfErr result (λ error. cmd.new ≡ cmd.old) }
{
    let sub = commanded(board, cmd.sub)?;
    Ok(command_test(sub, cmd))
}

/// Appends the answer to a command that is tested on its subdevice, as `test_on` has it.
pub fn put_answer(
    alloc: Global,
    text: &mut Vec<u8>,
    board: &BoardDesc,
    cmd: &Cmd,
) -> Result<(), NoMemory>
    requires { length cmd.now.list ≤ 1024 }
    ensures { OnOk result (text.new.items ≡ text.old.items ++ test_answer board.now cmd.now) }
{
    let mut left = cmd.copy(alloc)?;
    match test_on(board, &mut left) {
        Ok(step) => put_step(text, step, &left),
        Err(error) => put_refused(text, error),
    }
}

// Appends a step and a command.
fn put_step(text: &mut Vec<u8>, step: u8, cmd: &Cmd) -> Result<(), NoMemory>
    ensures { OnOk result (text.new.items ≡ text.old.items ++ test_text (step, cmd.now)) }
{
    text.extend_from_slice(b"step ")?;
    put_u64(text, u64::from(step))?;
    text.extend_from_slice(b" ")?;
    put_cmd(text, cmd)?;
    text.extend_from_slice(b"\n")?;
    Ok(())
}
