// A command that is read from its text, and printed again.
use cm_base::faults::ReadStop;
use cm_base::lines::{Line, split_lines};
use cm_cmd::printing::print_cmd;
use cm_cmd::reading::read_cmd;
use std::alloc::Global;
use std::test::Fail;

const LINE: &[u8; 76] =
    b"cmd 2 1 ext:3 timer:1000 now:0 count:2 none:0 0/1/ground,1/0/diff,2/0/common";

const TEXT: &[u8] = b"2 1 ext:3 timer:1000 now:0 count:2 none:0 0/1/ground,1/0/diff,2/0/common";

// The text of the command that the line has after its first word.
fn printed(alloc: Global) -> Result<Vec<u8>, ReadStop> {
    let lines = split_lines(alloc, LINE)?;
    let mut line = Line::empty(alloc);
    lines.from(0).next(alloc, &mut line)?;
    let cmd = read_cmd(alloc, &line, 1)?;
    Ok(print_cmd(alloc, &cmd)?)
}

#[test]
fn a_printed_command_is_the_text_that_was_read(rt: HostRuntime) -> Result<(), Fail> {
    let text = printed(rt.alloc())?;
    assert!(rt; text.as_slice() == TEXT);
    Ok(())
}
