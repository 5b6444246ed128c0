// The answer to a text, or to a line, that is refused.
ghost use Rattle.std.specs.Prelude.{◌≡◌, IfOk};
ghost use Rattle.cm_text.specs.Declined.{fault_name, refused_text};

use cm_base::faults::{Fault, Refused};
use cm_base::numbers::put_u64;
use cm_base::transfer::NoMemory;
use std::alloc::Global;

/// The text of a refusal: its line and its cause.
pub fn refusal(alloc: Global, refused: Refused) -> Result<Vec<u8>, NoMemory>
    ensures { IfOk result (λ text. text.items ≡ refused_text refused) }
{
    let mut text = Vec::from_slice(alloc, b"refused ")?;
    put_u64(&mut text, u64::from(refused.line))?;
    text.extend_from_slice(b" ")?;
    text.extend_from_slice(name_of(refused.cause))?;
    text.extend_from_slice(b"\n")?;
    Ok(text)
}

fn name_of(cause: Fault) -> &'static [u8]
    ensures { result.now ≡ fault_name cause }
{
    match cause {
        Fault::TooLong => b"TooLong",
        Fault::BadLine => b"BadLine",
        Fault::BadNumber => b"BadNumber",
        Fault::Unknown => b"Unknown",
        Fault::Missing => b"Missing",
        Fault::Double => b"Double",
        Fault::Limit => b"Limit",
        Fault::Bad => b"Bad",
    }
}
