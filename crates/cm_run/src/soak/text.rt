// The text of a soak.
ghost use Rattle.std.specs.Prelude.{◌≡◌, ◌++◌, OnOk, codes};
ghost use Rattle.std.specs.Fmt.{decimal};
ghost use Rattle.cm_run.specs.SoakText.{part_line, part_lines, summary_text};

use crate::soak::part::{Part, Summary};
use cm_base::numbers::put_u64;
use cm_base::transfer::NoMemory;

// Appends the line of a subdevice.
fn put_part(text: &mut Vec<u8>, index: u64, part: Part) -> Result<(), NoMemory>
    ensures { OnOk result (text.new.items ≡ text.old.items ++ part_line index part) }
{
    text.extend_from_slice(b"soak ")?;
    put_u64(text, index)?;
    text.extend_from_slice(b" ")?;
    put_u64(text, u64::from(part.count))?;
    text.extend_from_slice(b" ")?;
    put_u64(text, part.sum)?;
    text.extend_from_slice(b" done\n")?;
    Ok(())
}

// Appends the lines of subdevices, which are counted from 0.
#[tactic(auto, using(crate::proofs::SoakTexts::lines_more))]
fn put_parts(text: &mut Vec<u8>, parts: &[Part]) -> Result<(), NoMemory>
    ensures { OnOk result (text.new.items ≡ text.old.items ++ part_lines 0 parts.now) }
{
    for i in 0..parts.len() {
        put_part(text, i as u64, parts[i])?;
    }
    Ok(())
}

// Appends the line of the whole.
fn put_total(text: &mut Vec<u8>, n: u32) -> Result<(), NoMemory>
    ensures { OnOk result (text.new.items ≡ text.old.items ++ (codes "total " ++ decimal n ++ codes "\n")) }
{
    text.extend_from_slice(b"total ")?;
    put_u64(text, u64::from(n))?;
    text.extend_from_slice(b"\n")?;
    Ok(())
}

/// Appends the text of a soak of `n` conversions: a line for each of the four subdevices with how many
/// samples were read and their sum, and the line of the whole.
pub fn put_soak(text: &mut Vec<u8>, n: u32, summary: &Summary) -> Result<(), NoMemory>
    ensures { OnOk result (text.new.items ≡ text.old.items ++ summary_text n summary.now.parts) }
{
    put_parts(text, &summary.parts)?;
    put_total(text, n)
}
