// Who has each subdevice, as a client is told.
ghost use Rattle.std.specs.Prelude.{◌≡◌, ◌++◌, length, flat_map, OnOk};
ghost use Rattle.cm_serve.specs.Claimed.{claim_text, claims_text, file_text};

use cm_base::transfer::NoMemory;
use cm_running::text::put_spaced;
use cm_sub::claim::Claim;
use cm_sub::files::Files;

// A file by its number, and -1 for none.
fn put_file(text: &mut Vec<u8>, file: Option<u32>) -> Result<(), NoMemory>
    ensures { OnOk result (text.new.items ≡ text.old.items ++ file_text file) }
{
    match file {
        None => Ok(text.extend_from_slice(b" -1")?),
        Some(file) => put_spaced(text, &[file]),
    }
}

// Who has a subdevice.
fn put_claim(text: &mut Vec<u8>, claim: Claim) -> Result<(), NoMemory>
    ensures { OnOk result (text.new.items ≡ text.old.items ++ claim_text claim) }
{
    put_file(text, claim.holder)?;
    put_file(text, claim.runner)
}

// Who has each of so many subdevices.
fn put_each(text: &mut Vec<u8>, files: &Files, count: u32) -> Result<(), NoMemory>
    requires { count ≡ length files.now.claims }
    ensures { OnOk result (text.new.items ≡ text.old.items ++ flat_map claim_text files.now.claims) }
{
    for index in 0..count {
        put_claim(text, files.claim(index))?;
    }
    Ok(())
}

/// Appends who has each of so many subdevices, which are all.
pub(crate) fn put_claims(text: &mut Vec<u8>, files: &Files, count: u32) -> Result<(), NoMemory>
    requires { count ≡ length files.now.claims }
    ensures { OnOk result (text.new.items ≡ text.old.items ++ claims_text files.now) }
{
    text.extend_from_slice(b"ok")?;
    put_each(text, files, count)?;
    text.extend_from_slice(b"\n")?;
    Ok(())
}
