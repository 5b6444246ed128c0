// Files that are closed.
ghost use Rattle.std.specs.Prelude.{◌≡◌, ◌≤◌, length, OnOk};
ghost use Rattle.cm_replay.specs.Answers.{Fine};
ghost use Rattle.cm_replay.specs.Replies.{Leads};
ghost use Rattle.cm_replay.specs.Session.{closed_state, left_by, left_devices, unless_refused};
ghost use Rattle.cm_sub.specs.Checks.{first_refusal};
ghost use Rattle.cm_sub.specs.Files.{close_checks};

use crate::seat::Seat;
use crate::text::put_fine;
use cm_base::transfer::NoMemory;
use cm_sub::claim::Claim;
use cm_sub::errno::put_refused;
use cm_sub::files::Files;

/// `close`: the file gives up its locks, and its commands end. Refused as `Files::close_file` is.
pub(crate) fn close(
    file: u32,
    files: &mut Files,
    seats: &mut Vec<Seat<'_>>,
    text: &mut Vec<u8>,
) -> Result<(), NoMemory>
    requires many { length files.old.claims ≡ length seats.old.items }
    requires few { length seats.old.items ≤ 16 }
    ensures { OnOk result (Leads (unless_refused (first_refusal (close_checks file files.old)) (record { files = files.old; devices = seats.old.items }) (record { answer = Fine; state = closed_state file (record { files = files.old; devices = seats.old.items }) })) (record { files = files.new; devices = seats.new.items }) text.old.items text.new.items) }
{
    match files.close_file(file) {
        Err(error) => put_refused(text, error),
        Ok(()) => {
            end_commands(files, seats);
            put_fine(text)
        }
    }
}

// Ends the commands whose files don't have their subdevices any more.
fn end_commands(files: &Files, seats: &mut Vec<Seat<'_>>)
    requires many { length files.now.claims ≡ length seats.old.items }
    requires few { length seats.old.items ≤ 16 }
    ensures { seats.new.items ≡ left_devices files.now.claims seats.old.items }
{
    for i in 0..seats.len() {
        end_command(files.claim(i as u32), &mut seats[i]);
    }
}

fn end_command(claim: Claim, seat: &mut Seat<'_>)
    ensures { seat.new ≡ left_by claim seat.old }
{
    if claim.runner.is_none() {
        seat.set_running(None);
    }
}
