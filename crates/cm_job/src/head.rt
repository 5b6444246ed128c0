// What stands in a line before its commands, and the commands.
ghost use Rattle.std.specs.Prelude.{◌≡◌, ◌<◌, ◌≤◌, drop, length, map, IfOk};
ghost use Rattle.cm_base.specs.LineView.{line_view};
ghost use Rattle.cm_base.specs.ReadStop.{Gives};
ghost use Rattle.cm_base.specs.Reading.{at_line, seen};
ghost use Rattle.cm_board.specs.Versions as versions;
ghost use Rattle.cm_cmd.specs.CommandText.{command_of};
ghost use Rattle.cm_job.specs.Head as spec;

use cm_base::faults::{Fault, ReadStop};
use cm_base::lines::Line;
use cm_base::parts::begins;
use cm_board::versions::most_entries;
use cm_cmd::command::Cmd;
use cm_cmd::reading::read_cmd_up_to;
use std::alloc::Global;

/// How many words a command has.
pub(crate) const COMMAND: usize = 8;

/// The one word that may begin the line.
pub(crate) fn only(key: &[u8], line: &Line<'_>) -> Result<(), Fault>
    ensures { seen (λ u. tt) result ≡ spec.only_word key.now (line_view line.now) }
{
    if line.bad {
        Err(Fault::BadLine)
    } else if begins(key, line) {
        Ok(())
    } else {
        Err(Fault::Missing)
    }
}

/// The words before those of the commands, where there are as many of each.
pub(crate) fn before_commands<'a, 'b>(
    words: &'b [&'a [u8]],
    count: usize,
    rest: usize,
) -> Result<&'b [&'a [u8]], Fault>
    requires count { count ≤ 8 }
    requires rest { rest ≤ 16 }
    ensures words { seen (λ words. map (λ word. word.now) words.now) result ≡ spec.before_commands count rest (map (λ word. word.now) words.now) }
    ensures count { IfOk result (λ words. length words.now ≡ count) }
{
    if words.len() == count + rest {
        Ok(&words[..count])
    } else {
        Err(Fault::BadLine)
    }
}

/// A word by its place.
pub(crate) fn word_at<'a>(words: &[&'a [u8]], index: usize) -> &'a [u8]
    requires { index < length words.now }
    ensures { result.now ≡ spec.word_at (map (λ word. word.now) words.now) index }
{
    words[index]
}

/// The command that the words of a line say from a place on, on a board whose text has this version.
pub(crate) fn read_command(
    alloc: Global,
    version: u32,
    line: &Line<'_>,
    from: usize,
) -> Result<Cmd, ReadStop>
    ensures value { Gives (λ cmd. cmd) result (at_line line.now.number (command_of (versions.most_entries version) (drop from (line_view line.now).words))) }
    ensures few { IfOk result (λ cmd. length cmd.list ≤ 1024) }
{
    read_cmd_up_to(alloc, line, from, most_entries(version))
}
