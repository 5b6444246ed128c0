// A text that may lack its signals, or its session.
ghost use Rattle.std.specs.Prelude.{◌≡◌, ◌+◌, ◌-◌, ◌<◌, ◌≤◌, ◌^◌, length, IfOk, OnOk};
ghost use Rattle.std.specs.List.{list_any};
ghost use Rattle.cm_base.specs.Parts.{begins};
ghost use Rattle.cm_facts.specs.Whole as spec;

use cm_base::lines::{Cursor, Line, split_lines};
use cm_base::parts::begins;
use cm_base::transfer::NoMemory;
use std::alloc::Global;

/// Returns whether a line of a text begins with this word.
pub(crate) fn has_part(alloc: Global, key: &[u8], text: &[u8]) -> Result<bool, NoMemory>
    requires { length text.now < 2 ^ 32 - 1 }
    ensures { IfOk result (λ has. has ≡ spec.has_part key.now text.now) }
{
    let lines = split_lines(alloc, text)?;
    has_line(alloc, key, lines.from(0))
}

// Returns whether one of these lines begins with this word.
fn has_line(alloc: Global, key: &[u8], lines: Cursor<'_>) -> Result<bool, NoMemory>
    ensures { IfOk result (λ has. has ≡ list_any (begins key.now) lines.entry) }
{
    let mut rest = lines;
    let mut line = Line::empty(alloc);
    while rest.next(alloc, &mut line)? {
        if begins(key, &line) {
            return Ok(true);
        }
    }
    Ok(false)
}

/// Returns a text with signals and a session, if only of the time 0 and an empty one.
pub(crate) fn whole_text(alloc: Global, text: Vec<u8>) -> Result<Vec<u8>, NoMemory>
    requires { length text.items ≤ 1048576 }
    ensures text { IfOk result (λ whole. whole.items ≡ spec.whole_text text.items) }
    ensures short { IfOk result (λ whole. length whole.items ≤ 1048600) }
{
    let text = with_part(alloc, b"signals", b"signals 0\n", text)?;
    with_part(alloc, b"session", b"session\n", text)
}

// Returns a text with a line that begins with this word: its own, or this one after all others.
fn with_part(alloc: Global, key: &[u8], line: &[u8], text: Vec<u8>) -> Result<Vec<u8>, NoMemory>
    requires { length text.items < 2 ^ 32 - 1 }
    ensures text { IfOk result (λ whole. whole.items ≡ spec.with_part key.now line.now text.items) }
    ensures short { IfOk result (λ whole. length whole.items ≤ length text.items + 1 + length line.now) }
{
    if has_part(alloc, key, &text)? {
        return Ok(text);
    }
    let mut whole = text;
    end_line(&mut whole)?;
    whole.extend_from_slice(line)?;
    Ok(whole)
}

// Ends the last line of a text.
fn end_line(text: &mut Vec<u8>) -> Result<(), NoMemory>
    ensures text { OnOk result (text.new.items ≡ spec.ended text.old.items) }
    ensures short { OnOk result (length text.new.items ≤ length text.old.items + 1) }
{
    if ends_line(text) {
        return Ok(());
    }
    text.extend_from_slice(b"\n")?;
    Ok(())
}

// Returns whether the last line of a text is ended, if there is a line.
fn ends_line(text: &[u8]) -> bool
    ensures { result ≡ spec.ends_line text.now }
{
    text.is_empty() || text[text.len() - 1] == b'\n'
}
