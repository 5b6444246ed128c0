// The lines that write into the buffer of a subdevice's command.
ghost use Rattle.std.specs.Prelude.{◌≡◌, ◌<◌, ◌≤◌, ◌^◌, length, OnOk};
ghost use Rattle.cm_replay.specs.Forms.{form};
ghost use Rattle.cm_replay.specs.Ready.{CanMove};
ghost use Rattle.cm_replay.specs.Replies.{Replies, checked, here_at, wiring_of};
ghost use Rattle.cm_replay.specs.Writing as spec;
ghost use Rattle.cm_session.specs.declared.op.Op.TheVariants as ops;

use crate::at::At;
use crate::reading::report_over;
use crate::seat::Seat;
use cm_base::transfer::NoMemory;
use cm_running::text::put_count;
use cm_sub::errno::{Errno, put_refused};
use cm_sub::files::Files;

// How many words are filled and not marked.
fn unmarked(seat: &Seat<'_>) -> u64
    ensures { result ≡ spec.unmarked seat.now.running }
{
    match &seat.running {
        None => 0,
        Some(command) => {
            let places = command.places();
            places.a - places.w
        }
    }
}

// The place of the next word that a client gives.
fn next_place(seat: &Seat<'_>) -> u64
    ensures place { result ≡ spec.next_place seat.now.running }
    ensures small { result < 2 ^ 62 }
{
    match &seat.running {
        None => 0,
        Some(command) => {
            let places = command.places();
            places.a
        }
    }
}

// The greatest word of a place.
fn most_at(at: &At<'_>, seat: &Seat<'_>, place: u64) -> u32
    requires { CanMove (wiring_of at.now) at.now.index at.now.time seat.now.running }
    ensures { result ≡ spec.most_at at.now.sub.now seat.now.running place }
{
    match &seat.running {
        None => {
            let sub = at.sub;
            sub.maxdata
        }
        Some(command) => command.most_at(place),
    }
}

// Whether each word is one of its place's channel.
fn fit(at: &At<'_>, seat: &Seat<'_>, words: &[u32]) -> bool
    requires ready { CanMove (wiring_of at.now) at.now.index at.now.time seat.now.running }
    requires few { length words.now ≤ 1024 }
    ensures { result ≡ spec.all_fit (spec.most_at at.now.sub.now seat.now.running) (spec.next_place seat.now.running) words.now }
{
    let place = next_place(seat);
    for i in 0..words.len() {
        if words[i] > most_at(at, seat, place + i as u64) {
            return false;
        }
    }
    true
}

/// `write`: stores the first words, as far as there is room, and marks them, or reports the end.
/// Refused as a line that writes is, and with Inval (`EINVAL`) where words are filled and not marked
/// or a word is above the greatest one of its channel.
pub(crate) fn write(
    at: &At<'_>,
    words: &[u32],
    files: &mut Files,
    seat: &mut Seat<'_>,
    text: &mut Vec<u8>,
) -> Result<(), NoMemory>
    requires within { at.now.index < length files.old.claims }
    requires few { length words.now ≤ 1024 }
    requires ready { CanMove (wiring_of at.now) at.now.index at.now.time seat.old.running }
    ensures { OnOk result (Replies (checked (form (ops.Write at.now.index words.now) (here_at at.now files.old seat.old)) (here_at at.now files.old seat.old)) files.new seat.new text.old.items text.new.items) }
{
    if let Err(error) = at.refuses(files, true, unmarked(seat) != 0) {
        return put_refused(text, error);
    }
    if !fit(at, seat, words) {
        return put_refused(text, Errno::Inval);
    }
    match &mut seat.running {
        Some(command) if command.runs_on() => {
            let count = command.write(words);
            put_count(text, u64::from(count))
        }
        _ => report_over(at, files, seat, text),
    }
}

/// `fill`: stores the first words, as far as there is room, or reports the end. Refused as a line
/// that writes is, and with Inval (`EINVAL`) where a word is above the greatest one of its channel.
pub(crate) fn fill(
    at: &At<'_>,
    words: &[u32],
    files: &mut Files,
    seat: &mut Seat<'_>,
    text: &mut Vec<u8>,
) -> Result<(), NoMemory>
    requires within { at.now.index < length files.old.claims }
    requires few { length words.now ≤ 1024 }
    requires ready { CanMove (wiring_of at.now) at.now.index at.now.time seat.old.running }
    ensures { OnOk result (Replies (checked (form (ops.Fill at.now.index words.now) (here_at at.now files.old seat.old)) (here_at at.now files.old seat.old)) files.new seat.new text.old.items text.new.items) }
{
    if let Err(error) = at.refuses(files, true, !fit(at, seat, words)) {
        return put_refused(text, error);
    }
    match &mut seat.running {
        Some(command) if command.runs_on() => {
            let count = command.fill(words);
            put_count(text, u64::from(count))
        }
        _ => report_over(at, files, seat, text),
    }
}

/// `mark`: marks the first `k` words that are filled and not marked. Refused as a line that writes
/// is, and with Inval (`EINVAL`) where fewer are.
pub(crate) fn mark(
    at: &At<'_>,
    k: u32,
    files: &Files,
    seat: &mut Seat<'_>,
    text: &mut Vec<u8>,
) -> Result<(), NoMemory>
    requires within { at.now.index < length files.now.claims }
    requires ready { CanMove (wiring_of at.now) at.now.index at.now.time seat.old.running }
    ensures { OnOk result (Replies (checked (form (ops.Mark at.now.index k) (here_at at.now files.now seat.old)) (here_at at.now files.now seat.old)) files.now seat.new text.old.items text.new.items) }
{
    if let Err(error) = at.refuses(files, true, unmarked(seat) < u64::from(k)) {
        return put_refused(text, error);
    }
    if let Some(command) = &mut seat.running {
        command.mark(k);
    }
    put_count(text, u64::from(k))
}
