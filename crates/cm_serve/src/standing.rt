// How a command stands, as its client is told.
ghost use Rattle.std.specs.Prelude.{◌≡◌, ◌++◌, None, codes, OnOk};
ghost use Rattle.std.specs.Fmt.{decimal};
ghost use Rattle.cm_serve.specs.Asking.{info_text, standing};

use cm_base::numbers::put_u64;
use cm_base::transfer::NoMemory;
use cm_text::end::{End, put_end_words};

/// Appends the places up to which a command's samples were read and written, and how it stands.
pub fn put_places(text: &mut Vec<u8>, r: u64, w: u64, end: Option<End>) -> Result<(), NoMemory>
    ensures { OnOk result (text.new.items ≡ text.old.items ++ (codes "ok " ++ decimal r ++ codes " " ++ decimal w ++ codes " " ++ standing end ++ codes "\n")) }
{
    text.extend_from_slice(b"ok ")?;
    put_u64(text, r)?;
    text.extend_from_slice(b" ")?;
    put_u64(text, w)?;
    text.extend_from_slice(b" ")?;
    put_standing(text, end)?;
    text.extend_from_slice(b"\n")?;
    Ok(())
}

/// Appends the places where no command runs.
pub fn put_no_places(text: &mut Vec<u8>) -> Result<(), NoMemory>
    ensures { OnOk result (text.new.items ≡ text.old.items ++ info_text None) }
{
    text.extend_from_slice(b"ok 0 0 idle\n")?;
    Ok(())
}

// Appends how a command stands.
fn put_standing(text: &mut Vec<u8>, end: Option<End>) -> Result<(), NoMemory>
    ensures { OnOk result (text.new.items ≡ text.old.items ++ standing end) }
{
    match end {
        None => {
            text.extend_from_slice(b"runs")?;
            Ok(())
        }
        Some(end) => put_end_words(text, end),
    }
}
