// The lines that read from the buffer of a subdevice's command.
ghost use Rattle.std.specs.Prelude.{◌≡◌, ◌<◌, ◌≤◌, length, IfSome, OnOk};
ghost use Rattle.cm_replay.specs.Answers.{Reply};
ghost use Rattle.cm_replay.specs.Forms.{form};
ghost use Rattle.cm_replay.specs.Reading as spec;
ghost use Rattle.cm_replay.specs.Ready.{CanMove};
ghost use Rattle.cm_replay.specs.Replies.{IsReached, Replies, Tells, checked, here_at, wiring_of};
ghost use Rattle.cm_running.specs.Running.{Running};
ghost use Rattle.cm_replay.specs.Texts.{codes_answer};
ghost use Rattle.cm_session.specs.declared.op.Op.TheVariants as ops;

use crate::at::At;
use crate::seat::Seat;
use crate::text::{put_end, put_fine, put_idle};
use cm_base::transfer::NoMemory;
use cm_running::text::put_count;
use cm_sub::errno::{Errno, put_refused};
use cm_sub::files::Files;

// How many samples are mapped.
fn mapped(seat: &Seat<'_>) -> u64
    ensures count { result ≡ spec.mapped seat.now.running }
    ensures order { IfSome seat.now.running (λ command. command.r ≤ command.ra) }
{
    match &seat.running {
        None => 0,
        Some(command) => {
            let places = command.places();
            places.ra - places.r
        }
    }
}

/// Reports that nothing runs, or the end of a command, which leaves its subdevice idle.
pub(crate) fn report_over(
    at: &At<'_>,
    files: &mut Files,
    seat: &mut Seat<'_>,
    text: &mut Vec<u8>,
) -> Result<(), NoMemory>
    requires within { at.now.index < length files.old.claims }
    requires over { spec.IsOver seat.old.running }
    ensures reply { (next : Running → Reply) → OnOk result (Replies (spec.on_running (here_at at.now files.old seat.old) seat.old.running next) files.new seat.new text.old.items text.new.items) }
    ensures codes { (next : Running → Reply) → OnOk result (Tells codes_answer (spec.on_running (here_at at.now files.old seat.old) seat.old.running next) files.new seat.new text.old.items text.new.items) }
{
    let Some(command) = &seat.running else {
        return put_idle(text);
    };
    match command.reported_end() {
        None => unreachable!(),
        Some(end) => {
            seat.set_running(None);
            files.finish(at.index);
            put_end(text, end)
        }
    }
}

/// `read`: the first samples, up to `n`, or the end where nothing is left. Refused as a line that
/// reads is, and with Inval (`EINVAL`) where samples are mapped.
pub(crate) fn read(
    at: &At<'_>,
    n: u32,
    files: &mut Files,
    seat: &mut Seat<'_>,
    text: &mut Vec<u8>,
) -> Result<(), NoMemory>
    requires within { at.now.index < length files.old.claims }
    requires ready { CanMove (wiring_of at.now) at.now.index at.now.time seat.old.running }
    ensures { OnOk result (Replies (checked (form (ops.Read at.now.index n) (here_at at.now files.old seat.old)) (here_at at.now files.old seat.old)) files.new seat.new text.old.items text.new.items) }
{
    if let Err(error) = at.refuses(files, false, mapped(seat) != 0) {
        return put_refused(text, error);
    }
    match &mut seat.running {
        Some(command) if command.runs_on() => command.read(n, text),
        _ => report_over(at, files, seat, text),
    }
}

/// The same in codes: the first samples, up to `n`, or the end where nothing is left.
pub fn read_codes(
    at: &At<'_>,
    n: u32,
    files: &mut Files,
    seat: &mut Seat<'_>,
    text: &mut Vec<u8>,
) -> Result<(), NoMemory>
    requires within { at.now.index < length files.old.claims }
    requires ready { CanMove (wiring_of at.now) at.now.index at.now.time seat.old.running }
    ensures { OnOk result (Tells codes_answer (checked (form (ops.Read at.now.index n) (here_at at.now files.old seat.old)) (here_at at.now files.old seat.old)) files.new seat.new text.old.items text.new.items) }
{
    let count = mapped(seat);
    if let Err(error) = at.refuses(files, false, count != 0) {
        return put_refused(text, error);
    }
    match &mut seat.running {
        Some(command) if command.runs_on() => command.read_codes(n, text),
        _ => report_over(at, files, seat, text),
    }
}

/// `map`: up to `n` more samples, or the end where nothing is left. Refused as a line that reads is.
pub(crate) fn map(
    at: &At<'_>,
    n: u32,
    files: &mut Files,
    seat: &mut Seat<'_>,
    text: &mut Vec<u8>,
) -> Result<(), NoMemory>
    requires within { at.now.index < length files.old.claims }
    requires ready { CanMove (wiring_of at.now) at.now.index at.now.time seat.old.running }
    ensures { OnOk result (Replies (checked (form (ops.Map at.now.index n) (here_at at.now files.old seat.old)) (here_at at.now files.old seat.old)) files.new seat.new text.old.items text.new.items) }
{
    if let Err(error) = at.refuses(files, false, false) {
        return put_refused(text, error);
    }
    match &mut seat.running {
        Some(command) if command.runs_on() => {
            let count = command.map(n);
            put_count(text, u64::from(count))
        }
        _ => report_over(at, files, seat, text),
    }
}

/// `look`: the mapped sample `i`. Refused as a line that reads is, and with Inval (`EINVAL`) where
/// that sample isn't mapped.
pub(crate) fn look(
    at: &At<'_>,
    i: u32,
    files: &Files,
    seat: &Seat<'_>,
    text: &mut Vec<u8>,
) -> Result<(), NoMemory>
    requires within { at.now.index < length files.now.claims }
    requires ready { CanMove (wiring_of at.now) at.now.index at.now.time seat.now.running }
    ensures { OnOk result (Replies (checked (form (ops.Look at.now.index i) (here_at at.now files.now seat.now)) (here_at at.now files.now seat.now)) files.now seat.now text.old.items text.new.items) }
{
    if let Err(error) = at.refuses(files, false, mapped(seat) <= u64::from(i)) {
        return put_refused(text, error);
    }
    match &seat.running {
        None => put_idle(text),
        Some(command) => command.look(i, text),
    }
}

/// `release`: the first `k` mapped samples. Refused as a line that reads is, and with Inval
/// (`EINVAL`) where fewer are mapped.
pub(crate) fn release(
    at: &At<'_>,
    k: u32,
    files: &Files,
    seat: &mut Seat<'_>,
    text: &mut Vec<u8>,
) -> Result<(), NoMemory>
    requires within { at.now.index < length files.now.claims }
    requires ready { CanMove (wiring_of at.now) at.now.index at.now.time seat.old.running }
    ensures { OnOk result (Replies (checked (form (ops.Release at.now.index k) (here_at at.now files.now seat.old)) (here_at at.now files.now seat.old)) files.now seat.new text.old.items text.new.items) }
{
    if let Err(error) = at.refuses(files, false, mapped(seat) < u64::from(k)) {
        return put_refused(text, error);
    }
    if let Some(command) = &mut seat.running {
        command.release(k);
    }
    put_count(text, u64::from(k))
}

/// `contents`: how many samples the buffer holds. Refused with Access (`EACCES`) where another file
/// runs the command.
pub(crate) fn contents(
    at: &At<'_>,
    files: &Files,
    seat: &Seat<'_>,
    text: &mut Vec<u8>,
) -> Result<(), NoMemory>
    requires { at.now.index < length files.now.claims }
    ensures { OnOk result (Replies (checked (form (ops.Contents at.now.index) (here_at at.now files.now seat.now)) (here_at at.now files.now seat.now)) files.now seat.now text.old.items text.new.items) }
{
    if at.is_foreign(files) {
        return put_refused(text, Errno::Access);
    }
    match &seat.running {
        None => put_count(text, 0),
        Some(command) => {
            let places = command.places();
            put_count(text, places.w - places.r)
        }
    }
}

/// `cancel`: ends the command, and drops what its buffer holds. Refused as `Files::cancel` is.
pub(crate) fn cancel(
    at: &At<'_>,
    files: &mut Files,
    seat: &mut Seat<'_>,
    text: &mut Vec<u8>,
) -> Result<(), NoMemory>
    requires { IsReached at.now files.old }
    ensures { OnOk result (Replies (checked (form (ops.Cancel at.now.index) (here_at at.now files.old seat.old)) (here_at at.now files.old seat.old)) files.new seat.new text.old.items text.new.items) }
{
    match files.cancel(at.file, at.index) {
        Err(error) => put_refused(text, error),
        Ok(_) => {
            seat.set_running(None);
            put_fine(text)
        }
    }
}
