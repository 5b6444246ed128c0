// The test of a command in Comedi's numbers.
ghost use Rattle.std.specs.Prelude.{◌≡◌, ◌≤◌, ◌++◌, length, OnOk};
ghost use Rattle.cm_serve.specs.CmdTest.{cmdtest_text, test_numbers};

use cm_base::transfer::NoMemory;
use cm_board::board::BoardDesc;
use cm_cmd::command::Cmd;
use cm_running::text::put_spaced;
use cm_sub::errno::put_refused;
use cm_test::testing::test_on;
use std::alloc::Global;

// The step that a command fails, or 0, and its triggers.
fn put_step(text: &mut Vec<u8>, step: u8, cmd: &Cmd) -> Result<(), NoMemory>
    ensures { OnOk result (text.new.items ≡ text.old.items ++ test_numbers (step, cmd.now)) }
{
    let numbers = [
        u32::from(step),
        cmd.start.src,
        cmd.start.arg,
        cmd.scan_begin.src,
        cmd.scan_begin.arg,
        cmd.convert.src,
        cmd.convert.arg,
        cmd.scan_end.src,
        cmd.scan_end.arg,
        cmd.stop.src,
        cmd.stop.arg,
    ];
    text.extend_from_slice(b"ok")?;
    put_spaced(text, &numbers)?;
    text.extend_from_slice(b"\n")?;
    Ok(())
}

/// Appends the answer to a command that is tested on its subdevice: the step that it fails, or 0, and its
/// triggers as the test leaves them.
pub(crate) fn put_cmdtest(
    alloc: Global,
    text: &mut Vec<u8>,
    board: &BoardDesc,
    cmd: &Cmd,
) -> Result<(), NoMemory>
    requires { length cmd.now.list ≤ 1024 }
    ensures { OnOk result (text.new.items ≡ text.old.items ++ cmdtest_text board.now cmd.now) }
{
    let mut left = cmd.copy(alloc)?;
    match test_on(board, &mut left) {
        Ok(step) => put_step(text, step, &left),
        Err(error) => put_refused(text, error),
    }
}
