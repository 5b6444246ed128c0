// The forms of a session's lines: what each word of a line has to be.
ghost use Rattle.std.specs.Prelude.{[], ◌≡◌, ◌≤◌, drop, map, length, IfOk};
ghost use Rattle.cm_base.specs.LineView.{line_view};
ghost use Rattle.cm_base.specs.ReadStop.{Gives};
ghost use Rattle.cm_base.specs.Reading.{at_line, seen};
ghost use Rattle.cm_base.specs.Words.{values};
ghost use Rattle.cm_cmd.specs.PrintedReads.{HasText};
ghost use Rattle.cm_session.specs.Forms as spec;

use crate::op::{BoxedCmd, Op, SessionLine};
use cm_base::faults::{Fault, ReadStop};
use cm_base::lines::Line;
use cm_base::lists::Nums;
use cm_base::words::{at_line, number_in, numbers, one, three, time_in, two, two_and_more};
use cm_board::versions::most_entries;
use cm_cmd::reading::read_cmd_up_to;
use cm_signal::bounds::Bounds;
use std::alloc::Global;

/// How a line starts: its number in the text, its bounds, and the word of its time.
#[derive(Clone, Copy)]
pub struct Start<'a> {
    pub number: u32,
    pub bounds: Bounds,
    pub time: &'a [u8],
}

/// The time of a line in nanoseconds, and its file.
#[derive(Clone, Copy)]
pub struct LineHead {
    pub time: u64,
    pub file: u32,
}

impl LineHead {
    /// The line that asks this.
    pub(crate) fn line(self, op: Op) -> SessionLine
        ensures { result ≡ spec.line_by self op }
    {
        SessionLine {
            time: self.time,
            file: self.file,
            op,
        }
    }
}

// The time and the file.
fn read_head(start: &Start<'_>, file: &[u8]) -> Result<LineHead, Fault>
    ensures value { result ≡ spec.head_of start.now.bounds start.now.time.now file.now }
    ensures within { IfOk result (λ head. head.time ≤ start.now.bounds.horizon) }
{
    let time = time_in(start.time, 0, start.bounds.horizon)?;
    let file = number_in(file, 0, 15)?;
    Ok(LineHead { time, file })
}

/// The time, the file and the subdevice.
pub fn place(start: &Start<'_>, file: &[u8], sub: &[u8]) -> Result<(LineHead, u32), Fault>
    ensures value { result ≡ spec.place_of start.now.bounds start.now.time.now file.now sub.now }
    ensures within { IfOk result (λ place. place.0.time ≤ start.now.bounds.horizon) }
{
    let head = read_head(start, file)?;
    let sub = number_in(sub, 0, 255)?;
    Ok((head, sub))
}

/// The file of `T KEY F`.
pub(crate) fn file_words(start: &Start<'_>, words: &[&[u8]]) -> Result<LineHead, Fault>
    ensures value { result ≡ spec.file_words start.now.bounds start.now.time.now (map (λ word. word.now) words.now) }
    ensures within { IfOk result (λ head. head.time ≤ start.now.bounds.horizon) }
{
    let file = one(words)?;
    read_head(start, file)
}

/// The file and the subdevice of `T KEY F SUB`.
pub fn sub_words(start: &Start<'_>, words: &[&[u8]]) -> Result<(LineHead, u32), Fault>
    ensures value { result ≡ spec.sub_words start.now.bounds start.now.time.now (map (λ word. word.now) words.now) }
    ensures within { IfOk result (λ place. place.0.time ≤ start.now.bounds.horizon) }
{
    let (file, sub) = two(words)?;
    place(start, file, sub)
}

/// The file, the subdevice and the number of `T KEY F SUB N`, with a number up to a limit.
pub fn number_words(
    start: &Start<'_>,
    words: &[&[u8]],
    most: u32,
) -> Result<(LineHead, u32, u32), Fault>
    ensures value { result ≡ spec.number_words most start.now.bounds start.now.time.now (map (λ word. word.now) words.now) }
    ensures within { IfOk result (λ w. (w.0.time ≤ start.now.bounds.horizon) × (w.2 ≤ most)) }
{
    let (file, sub, number) = three(words)?;
    let (head, sub) = place(start, file, sub)?;
    let number = number_in(number, 0, most)?;
    Ok((head, sub, number))
}

/// The file, the subdevice and the values of `T KEY F SUB V..`.
pub(crate) fn values_words(
    alloc: Global,
    start: &Start<'_>,
    words: &[&[u8]],
) -> Result<(LineHead, u32, Nums), ReadStop>
    ensures value { Gives (λ w. (w.0, w.1, w.2)) result (at_line start.now.number (spec.values_words start.now.bounds start.now.time.now (map (λ word. word.now) words.now))) }
    ensures within { IfOk result (λ w. (w.0.time ≤ start.now.bounds.horizon) × (length w.2 ≤ 1024)) }
{
    let (file, sub, values) = at_line(start.number, two_and_more(words))?;
    let (head, sub) = at_line(start.number, place(start, file, sub))?;
    let values = data_words(alloc, start.number, values, 1024)?;
    Ok((head, sub, values))
}

/// At most `most` numbers of 32 bits of the line with this number.
pub(crate) fn data_words(
    alloc: Global,
    line: u32,
    words: &[&[u8]],
    most: usize,
) -> Result<Nums, ReadStop>
    ensures value { Gives (λ few. few) result (at_line line (values most spec.data_word [] (map (λ word. word.now) words.now))) }
    ensures few { IfOk result (λ few. length few ≤ most) }
{
    let few = numbers(alloc, line, words, most)?;
    Ok(Nums::new(few))
}

// The file, where the eight words of a command stand after it.
fn file_word<'a>(words: &[&'a [u8]]) -> Result<&'a [u8], Fault>
    ensures { seen (λ w. w.now) result ≡ spec.file_word (map (λ word. word.now) words.now) }
{
    if words.len() == 9 {
        Ok(words[0])
    } else {
        Err(Fault::BadLine)
    }
}

/// The file and the command of `T cmd F COMMAND`, whose words after the key are given too.
pub(crate) fn command_words(
    alloc: Global,
    start: &Start<'_>,
    line: &Line<'_>,
    words: &[&[u8]],
) -> Result<(LineHead, BoxedCmd), ReadStop>
    requires number { start.now.number ≡ line.now.number }
    requires words { drop 2 (line_view line.now).words ≡ map (λ word. word.now) words.now }
    ensures value { Gives (λ w. (w.0, w.1)) result (at_line start.now.number (spec.command_words start.now.bounds start.now.time.now (map (λ word. word.now) words.now))) }
    ensures within { IfOk result (λ w. (w.0.time ≤ start.now.bounds.horizon) × HasText 1024 w.1) }
{
    let file = at_line(start.number, file_word(words))?;
    let head = at_line(start.number, read_head(start, file))?;
    let cmd = read_cmd_up_to(alloc, line, 3, most_entries(start.bounds.version))?;
    Ok((head, BoxedCmd::new(alloc, cmd)?))
}
