// The session part of `test`.
ghost use Rattle.std.specs.Prelude.{◌≤◌, length, IfOk};
ghost use Rattle.std.specs.List.{All};
ghost use Rattle.cm_base.specs.LineView.{line_view};
ghost use Rattle.cm_base.specs.ReadStop.{Gives};
ghost use Rattle.cm_base.specs.Reading.{at_line};
ghost use Rattle.cm_job.specs.TestLines.{test_line, tests_of};

use crate::head::{only, read_command};
use cm_base::faults::ReadStop;
use cm_base::lines::{Cursor, Line};
use cm_base::words::at_line;
use cm_board::board::BoardDesc;
use cm_cmd::command::Cmd;
use std::alloc::Global;

/// The commands of the lines of a `test` job's session part, over a board.
pub fn read_tests(alloc: Global, board: &BoardDesc, lines: Cursor<'_>) -> Result<Vec<Cmd>, ReadStop>
    ensures commands { Gives (λ cmds. cmds.items) result (tests_of board.now lines.entry) }
    ensures few { IfOk result (λ cmds. All (λ cmd. length cmd.list ≤ 1024) cmds.items) }
{
    let mut lines = lines;
    let mut line = Line::empty(alloc);
    let mut cmds = Vec::new(alloc);
    while lines.next(alloc, &mut line)? {
        let cmd = match read_test(alloc, board, &line) {
            Ok(cmd) => cmd,
            Err(stop) => return Err(stop),
        };
        cmds.push(cmd)?;
    }
    Ok(cmds)
}

// The command of a `test` line.
fn read_test(alloc: Global, board: &BoardDesc, line: &Line<'_>) -> Result<Cmd, ReadStop>
    ensures command { Gives (λ cmd. cmd) result (at_line line.now.number (test_line board.now (line_view line.now))) }
    ensures few { IfOk result (λ cmd. length cmd.list ≤ 1024) }
{
    at_line(line.number, only(b"test", line))?;
    read_command(alloc, board.version, line, 1)
}
