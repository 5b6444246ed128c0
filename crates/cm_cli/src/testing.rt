// The answers to the lines of `test`.
ghost use Rattle.std.specs.Prelude.{◌≤◌, length, OnOk, OnErr, IsErrOf};
ghost use Rattle.std.specs.List.{All};
ghost use Rattle.std.specs.Io.KnownBytes.{Appends};
ghost use Rattle.cm_base.specs.Causes.{Rose};
ghost use Rattle.cm_base.specs.Transfer.{AppendsPrefix};
ghost use Rattle.cm_cli.specs.TestSession.{tests_text};

use cm_base::outside::Sink;
use cm_base::transfer::{TextStop, flush, flush_full};
use cm_board::board::BoardDesc;
use cm_cmd::command::Cmd;
use cm_test::testing::put_answer;
use std::alloc::Global;

/// Writes the answers to commands that are tested, in pieces of about 64 KiB.
pub(crate) fn test_all<K: Sink>(
    alloc: Global,
    board: &BoardDesc,
    cmds: &[Cmd],
    sink: &mut K,
) -> Result<(), TextStop>
    requires { All (λ cmd. length cmd.list ≤ 1024) cmds.now }
    ensures ok { OnOk result (Appends (K.text sink.old) (K.text sink.new) (tests_text board.now cmds.now)) }
    ensures prefix { OnErr result (AppendsPrefix (K.text sink.old) (K.text sink.new) (tests_text board.now cmds.now)) }
    ensures fault { IsErrOf result TextStop.WriteFault → Rose (K.faults sink.old) (K.faults sink.new) }
    ensures later { K.faults sink.old ≤ K.faults sink.new }
{
    let mut text = Vec::new(alloc);
    for cmd in cmds {
        put_answer(alloc, &mut text, board, cmd)?;
        flush_full(sink, &mut text)?;
    }
    flush(sink, &mut text)?;
    Ok(())
}
