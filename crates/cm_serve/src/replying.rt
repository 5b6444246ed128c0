// The answer to a line of a dialogue.
ghost use Rattle.std.specs.Prelude.{◌≡◌, ◌<◌, ◌≤◌, ◌^◌, ◌++◌, length, None, IfOk, OnOk};
ghost use Rattle.cm_base.specs.Lines.{lines_of};
ghost use Rattle.cm_text.specs.Declined.{refused_text};
ghost use Rattle.cm_serve.specs.Playing.{line_text, played};
ghost use Rattle.cm_session.specs.Limits.{IsLimited};
ghost use Rattle.cm_serve.specs.Dialogue.{replied, reply};
ghost use Rattle.cm_dialogue.specs.Reading.{IsFit};

use crate::kept::Kept;
use crate::playing::Playing;
use crate::untimed::put_told;
use cm_base::faults::{Fault, ReadStop, Refused};
use cm_base::lines::{Line, split_lines};
use cm_base::transfer::NoMemory;
use cm_dialogue::dialogue_line::DialogueLine;
use cm_dialogue::reading::read_said;
use cm_replay::trying::try_line;
use cm_session::op::SessionLine;
use cm_text::declining::refusal;
use std::alloc::Global;
use std::sync::Wait;

/// Appends the answer to a line with this number, whose line feed is cut off.
pub(crate) fn put_reply<'a, R: Wait>(
    rt: &R,
    alloc: Global,
    kept: &'a Kept,
    playing: Playing<'a>,
    number: u32,
    bytes: &[u8],
    text: &mut Vec<u8>,
) -> Result<Playing<'a>, NoMemory>
    requires { length bytes.now ≤ 1048576 }
    ensures after { IfOk result (λ p. p ≡ (reply playing.entry number bytes.now).play) }
    ensures text { IfOk result (λ _. text.new.items ≡ text.old.items ++ (reply playing.entry number bytes.now).text) }
{
    let lines = split_lines(alloc, bytes)?;
    let mut line = Line::empty(alloc);
    let mut cursor = lines.from(0);
    if !cursor.next(alloc, &mut line)? {
        return Ok(playing);
    }
    match read_said(alloc, playing.bounds(), playing.latest(), &line) {
        Ok(said) => put_said(rt, alloc, kept, playing, &said, text),
        Err(ReadStop::NoMemory) => Err(NoMemory),
        Err(ReadStop::Refused(refused)) => {
            put_refusal(alloc, number, refused.cause, text)?;
            Ok(playing)
        }
    }
}

// Appends why a line with this number is refused.
fn put_refusal(alloc: Global, line: u32, cause: Fault, text: &mut Vec<u8>) -> Result<(), NoMemory>
    ensures { OnOk result (text.new.items ≡ text.old.items ++ refused_text (record { line = line; cause = cause })) }
{
    let why = refusal(alloc, Refused { line, cause })?;
    text.extend_from_slice(&why)?;
    Ok(())
}

// Appends the answer to what a line says.
fn put_said<'a, R: Wait>(
    rt: &R,
    alloc: Global,
    kept: &'a Kept,
    playing: Playing<'a>,
    said: &DialogueLine,
    text: &mut Vec<u8>,
) -> Result<Playing<'a>, NoMemory>
    requires { IsFit playing.setting.signals.horizon playing.latest said.now }
    ensures after { IfOk result (λ p. p ≡ (replied playing.entry said.now).play) }
    ensures text { IfOk result (λ _. text.new.items ≡ text.old.items ++ (replied playing.entry said.now).text) }
{
    match said {
        DialogueLine::Session(line) => put_line(rt, alloc, kept, playing, line, text),
        DialogueLine::Question(asked) => playing.ask(alloc, asked, text),
        DialogueLine::Fetch(fetch) => playing.fetch(alloc, fetch, text),
        DialogueLine::Untimed(asked) => {
            put_told(alloc, &playing, asked, text)?;
            Ok(playing)
        }
    }
}

// Appends the answer to a line of a session.
fn put_line<'a, R: Wait>(
    rt: &R,
    alloc: Global,
    kept: &'a Kept,
    playing: Playing<'a>,
    line: &SessionLine,
    text: &mut Vec<u8>,
) -> Result<Playing<'a>, NoMemory>
    requires order { playing.latest ≤ line.now.time }
    requires limits { IsLimited playing.setting.signals.horizon line.now }
    ensures after { IfOk result (λ p. p ≡ played playing.entry line.now) }
    ensures text { IfOk result (λ _. text.new.items ≡ text.old.items ++ line_text playing.entry line.now) }
{
    let tried = try_line(alloc, playing.board(), &line.op)?;
    let tried = kept.keep(rt, tried)?;
    playing.answer(alloc, line, tried, text)
}
