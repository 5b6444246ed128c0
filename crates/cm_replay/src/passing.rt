// The passing of time.
ghost use Rattle.std.specs.Prelude.{◌≡◌, ◌≤◌, ◌++◌, length, map, OnOk};
ghost use Rattle.std.specs.List.{All};
ghost use Rattle.cm_text.specs.Outputs.{output_texts};
ghost use Rattle.cm_replay.specs.Replies.{HasCome};
ghost use Rattle.cm_replay.specs.Session.{brought_device, due_from, due_of};

use crate::seat::Seat;
use cm_base::transfer::NoMemory;

/// Brings a subdevice's command to a time, where there is one, and appends the lines of what it puts
/// out.
fn bring(seat: &mut Seat<'_>, index: u32, time: u64, text: &mut Vec<u8>) -> Result<(), NoMemory>
    requires { HasCome time seat.old }
    ensures after { OnOk result (seat.new ≡ brought_device time seat.old) }
    ensures text { OnOk result (text.new.items ≡ text.old.items ++ output_texts (due_of index time seat.old.running)) }
{
    match &mut seat.running {
        None => Ok(()),
        Some(command) => command.bring_to(index, time, text),
    }
}

/// Brings the command of each subdevice to a time, in rising order of subdevice, and appends the
/// lines of what is put out.
pub fn bring_all(seats: &mut Vec<Seat<'_>>, time: u64, text: &mut Vec<u8>) -> Result<(), NoMemory>
    requires ready { All (HasCome time) seats.old.items }
    requires few { length seats.old.items ≤ 16 }
    ensures after { OnOk result (seats.new.items ≡ map (brought_device time) seats.old.items) }
    ensures text { OnOk result (text.new.items ≡ text.old.items ++ output_texts (due_from 0 time seats.old.items)) }
{
    for i in 0..seats.len() {
        bring(&mut seats[i], i as u32, time, text)?;
    }
    Ok(())
}
