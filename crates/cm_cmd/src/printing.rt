// Commands, written as text.
ghost use Rattle.std.specs.Prelude.{ℕ, ◌≡◌, ◌≤◌, ◌++◌, [], ◌∷◌, drop, Ok, IfOk, IfSome, OnOk};
ghost use Rattle.std.specs.Fmt.{decimal};
ghost use Rattle.std.specs.List.{flat_map};
ghost use Rattle.cm_base.specs.Lines.{words_of};
ghost use Rattle.cm_base.specs.SourceText.{source_text};
ghost use Rattle.cm_cmd.specs.CommandText.{command_of, command_text, trigger_text};
ghost use Rattle.cm_cmd.specs.PrintedReads.{HasText};
ghost use Rattle.cm_cmd.specs.ListText.{aref_text, entry_text, list_text};

use crate::command::{Cmd, Trig};
use crate::entry::{aref, chan, range};
use cm_base::numbers::put_u64;
use cm_base::short::Short;
use cm_base::source::{COUNT, EXT, FOLLOW, INT, NONE, NOW, OTHER, TIME, TIMER};
use cm_base::source_text::put_sources;
use cm_base::transfer::NoMemory;
use std::alloc::Global;

/// The text of a command: its eight words with one space between two. Where the subdevice is below
/// 256, the sources are some of the nine, each entry has 26 bits and there aren't more entries than
/// may be read, the text is read as the same command.
pub fn print_cmd(alloc: Global, cmd: &Cmd) -> Result<Vec<u8>, NoMemory>
    ensures text { IfOk result (λ text. text.items ≡ command_text cmd.now) }
    ensures reads { IfOk result (λ text. (most : ℕ) → HasText most cmd.now → command_of most (words_of text.items) ≡ Ok cmd.now) }
{
    let mut out = Vec::new(alloc);
    put_cmd(&mut out, cmd)?;
    Ok(out)
}

/// Appends the text of a command, as `print_cmd` gives it. After an `Err` a part of the text may
/// stand there.
pub fn put_cmd(out: &mut Vec<u8>, cmd: &Cmd) -> Result<(), NoMemory>
    ensures { OnOk result (out.new.items ≡ out.old.items ++ command_text cmd.now) }
{
    put_head(out, cmd.sub, cmd.flags)?;
    put_trigger(out, cmd.start)?;
    put_trigger(out, cmd.scan_begin)?;
    put_trigger(out, cmd.convert)?;
    put_trigger(out, cmd.scan_end)?;
    put_trigger(out, cmd.stop)?;
    put_list(out, &cmd.list)
}

// The subdevice and the flags.
fn put_head(out: &mut Vec<u8>, sub: u32, flags: u32) -> Result<(), NoMemory>
    ensures { OnOk result (out.new.items ≡ out.old.items ++ decimal sub ++ 32 ∷ decimal flags) }
{
    let mut text = Short::new();
    text.small(flags);
    text.byte(b' ');
    text.small(sub);
    text.append_to(out)
}

// The text of a trigger, after a space.
fn put_trigger(out: &mut Vec<u8>, trigger: Trig) -> Result<(), NoMemory>
    ensures { OnOk result (out.new.items ≡ out.old.items ++ 32 ∷ trigger_text trigger) }
{
    match source_part(trigger.src) {
        Some((name, from)) => {
            let mut text = Short::new();
            text.small(trigger.arg);
            text.word(name, from);
            text.append_to(out)
        }
        None => put_sources_and_argument(out, trigger),
    }
}

// The same, where the trigger mostly has several sources.
#[inline(never)]
fn put_sources_and_argument(out: &mut Vec<u8>, trigger: Trig) -> Result<(), NoMemory>
    ensures { OnOk result (out.new.items ≡ out.old.items ++ 32 ∷ trigger_text trigger) }
{
    out.push(b' ')?;
    put_sources(out, trigger.src)?;
    out.push(b':')?;
    put_u64(out, u64::from(trigger.arg))
}

// The name of one source between a space and a colon, as the end of eight bytes from a place on.
fn source_part(src: u32) -> Option<(&'static [u8; 8], usize)>
    ensures part { IfSome result (λ part. drop part.1 part.0.now ≡ 32 ∷ (source_text src ++ 58 ∷ [])) }
    ensures within { IfSome result (λ part. part.1 ≤ 8) }
{
    match src {
        NONE => Some((b"   none:", 2)),
        NOW => Some((b"    now:", 3)),
        FOLLOW => Some((b" follow:", 0)),
        TIME => Some((b"   time:", 2)),
        TIMER => Some((b"  timer:", 1)),
        COUNT => Some((b"  count:", 1)),
        EXT => Some((b"    ext:", 3)),
        INT => Some((b"    int:", 3)),
        OTHER => Some((b"  other:", 1)),
        _ => None,
    }
}

// The entries with commas between them, and a dash for none, after a space.
fn put_list(out: &mut Vec<u8>, list: &[u32]) -> Result<(), NoMemory>
    ensures { OnOk result (out.new.items ≡ out.old.items ++ 32 ∷ list_text list.now) }
{
    match list {
        [] => Ok(out.extend_from_slice(b" -")?),
        [first, rest @ ..] => put_entries(out, *first, rest),
    }
}

// The entries with commas between them, after a space.
fn put_entries(out: &mut Vec<u8>, first: u32, rest: &[u32]) -> Result<(), NoMemory>
    ensures { OnOk result (out.new.items ≡ out.old.items ++ 32 ∷ list_text (first ∷ rest.now)) }
{
    put_entry(out, b' ', first)?;
    put_more_entries(out, rest)
}

// The entries, each after a comma.
fn put_more_entries(out: &mut Vec<u8>, list: &[u32]) -> Result<(), NoMemory>
    ensures { OnOk result (out.new.items ≡ out.old.items ++ flat_map (λ entry. 44 ∷ entry_text entry) list.now) }
{
    for entry in list {
        put_entry(out, b',', *entry)?;
    }
    Ok(())
}

// A channel, a range and a reference, with slashes between them, after a byte.
fn put_entry(out: &mut Vec<u8>, before: u8, entry: u32) -> Result<(), NoMemory>
    ensures { OnOk result (out.new.items ≡ out.old.items ++ before ∷ entry_text entry) }
{
    let (name, from) = aref_part(aref(entry));
    let mut text = Short::new();
    text.word(name, from);
    text.small(range(entry));
    text.byte(b'/');
    text.small(chan(entry));
    text.byte(before);
    text.append_to(out)
}

// The name of a reference after a slash, as the end of eight bytes from a place on.
fn aref_part(aref: u32) -> (&'static [u8; 8], usize)
    ensures part { drop result.1 result.0.now ≡ 47 ∷ aref_text aref }
    ensures within { result.1 ≤ 8 }
{
    match aref {
        0 => (b" /ground", 1),
        1 => (b" /common", 1),
        2 => (b"   /diff", 3),
        _ => (b"  /other", 2),
    }
}
