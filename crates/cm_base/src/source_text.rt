// Sources, written as text.
ghost use Rattle.std.specs.Prelude.{◌≡◌, ◌++◌, ◌||◌, not, ◌==◌, bit_and, OnOk, IfOk};
ghost use Rattle.cm_base.specs.SourceText.{named_part, source_text};

use crate::source::{COUNT, EXT, FOLLOW, INT, NONE, NOW, OTHER, TIME, TIMER};
use crate::transfer::NoMemory;

/// Appends the names of a mask's sources, in rising order of their bits and with bars between
/// them, and `invalid` for none. Bits above the nine sources are left out. After an `Err` a part of
/// the text may stand there.
pub fn put_sources(out: &mut Vec<u8>, mask: u32) -> Result<(), NoMemory>
    ensures { OnOk result (out.new.items ≡ out.old.items ++ source_text mask) }
{
    let some = put_source(out, mask, false, NONE, b"none")?;
    let some = put_source(out, mask, some, NOW, b"now")?;
    let some = put_source(out, mask, some, FOLLOW, b"follow")?;
    let some = put_source(out, mask, some, TIME, b"time")?;
    let some = put_source(out, mask, some, TIMER, b"timer")?;
    let some = put_source(out, mask, some, COUNT, b"count")?;
    let some = put_source(out, mask, some, EXT, b"ext")?;
    let some = put_source(out, mask, some, INT, b"int")?;
    let some = put_source(out, mask, some, OTHER, b"other")?;
    if !some {
        out.extend_from_slice(b"invalid")?;
    }
    Ok(())
}

// Appends a name where the mask has its bit, after a bar where another name stands there, and
// reports whether now a name stands there.
fn put_source(
    out: &mut Vec<u8>,
    mask: u32,
    some: bool,
    bit: u32,
    name: &[u8],
) -> Result<bool, NoMemory>
    ensures text { OnOk result (out.new.items ≡ out.old.items ++ named_part mask some (bit, name.now)) }
    ensures some { IfOk result (λ reported. reported ≡ (some || not (bit_and mask bit == 0))) }
{
    if mask & bit == 0 {
        return Ok(some);
    }
    if some {
        out.push(b'|')?;
    }
    out.extend_from_slice(name)?;
    Ok(true)
}
