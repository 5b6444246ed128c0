// What is told to a question that has no time.
ghost use Rattle.std.specs.Prelude.{◌≡◌, ◌++◌, codes, OnOk};
ghost use Rattle.cm_board_text.specs.Printed.{printed_board};
ghost use Rattle.cm_dialogue.specs.Reading.{IsSayable};
ghost use Rattle.cm_serve.specs.Untimed.{told};

use crate::cmdtest::put_cmdtest;
use crate::playing::Playing;
use crate::subdevices::put_subdevices;
use cm_base::transfer::NoMemory;
use cm_board::board::BoardDesc;
use cm_board_text::printing::print_board;
use cm_dialogue::dialogue_line::Untimed;
use cm_test::testing::put_answer;
use std::alloc::Global;

/// Appends the answer to a question that has no time.
pub(crate) fn put_told(
    alloc: Global,
    playing: &Playing<'_>,
    asked: &Untimed,
    text: &mut Vec<u8>,
) -> Result<(), NoMemory>
    requires { IsSayable asked.now }
    ensures { OnOk result (text.new.items ≡ text.old.items ++ told playing.now asked.now) }
{
    let board = playing.board();
    match asked {
        Untimed::Test(cmd) => put_answer(alloc, text, board, cmd.cmd()),
        Untimed::CmdTest(cmd) => put_cmdtest(alloc, text, board, cmd.cmd()),
        Untimed::Describe => put_board(alloc, board, text),
        Untimed::Subdevices => put_subdevices(text, board, playing.signals().horizon),
        Untimed::Claims => playing.put_claims(text),
    }
}

// Appends the text of a board, and a line that ends it.
fn put_board(alloc: Global, board: &BoardDesc, text: &mut Vec<u8>) -> Result<(), NoMemory>
    ensures { OnOk result (text.new.items ≡ text.old.items ++ (printed_board board.now ++ codes "ok\n")) }
{
    let printed = print_board(alloc, board)?;
    text.extend_from_slice(&printed)?;
    text.extend_from_slice(b"ok\n")?;
    Ok(())
}
