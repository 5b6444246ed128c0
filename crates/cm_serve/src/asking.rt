// What is reported to a client between the lines of a session.
ghost use Rattle.std.specs.Prelude.{◌≡◌, ◌<◌, ◌++◌, length, None, IfOk, OnOk};
ghost use Rattle.std.specs.List.{All};
ghost use Rattle.cm_dialogue.specs.Asked.{asked_op, session_line};
ghost use Rattle.cm_serve.specs.Asking.{asked_text, asked_time, info_text, report, told_time};
ghost use Rattle.cm_running.specs.Awaiting.{await_time};
ghost use Rattle.cm_running.specs.Reading.{peeked};
ghost use Rattle.cm_replay.specs.Forms.{form};
ghost use Rattle.cm_replay.specs.Replies.{CanAct, CanStep, HasCome, LeadsTelling, Tells, checked, here_at};
ghost use Rattle.cm_replay.specs.Session as session;
ghost use Rattle.cm_replay.specs.State.{device_at};
ghost use Rattle.cm_running.specs.Texts.{codes_text, count_text};

use crate::standing::{put_no_places, put_places};
use cm_base::transfer::NoMemory;
use cm_dialogue::asked::{Asked, Question};
use cm_replay::at::At;
use cm_replay::passing::bring_all;
use cm_replay::reading::read_codes;
use cm_replay::seat::Seat;
use cm_running::text::put_count;
use cm_signal::setting::Setting;
use cm_sub::errno::{Errno, put_refused};
use cm_sub::files::Files;
use std::alloc::Global;

// `Await`: the time at which there is what is awaited.
fn put_await(
    alloc: Global,
    n: u32,
    time: u64,
    seat: &mut Seat<'_>,
    text: &mut Vec<u8>,
) -> Result<u64, NoMemory>
    ensures same { seat.new ≡ seat.old }
    ensures text { OnOk result (text.new.items ≡ text.old.items ++ count_text (await_time n time seat.old.running)) }
    ensures time { IfOk result (λ told. told ≡ await_time n time seat.old.running) }
{
    let there = match &mut seat.running {
        None => time,
        Some(command) => command.await_time(alloc, n, time)?,
    };
    put_count(text, there)?;
    Ok(there)
}

// `Info`: the counts of the buffer and the command's end.
fn put_info(seat: &Seat<'_>, text: &mut Vec<u8>) -> Result<(), NoMemory>
    ensures { OnOk result (text.new.items ≡ text.old.items ++ info_text seat.now.running) }
{
    match &seat.running {
        None => put_no_places(text),
        Some(command) => {
            let places = command.places();
            put_places(text, places.r, places.w, command.reported_end())
        }
    }
}

// `Peek`: mapped samples in codes.
fn put_peek(from: u32, n: u32, seat: &Seat<'_>, text: &mut Vec<u8>) -> Result<(), NoMemory>
    ensures { OnOk result (text.new.items ≡ text.old.items ++ codes_text (peeked from n seat.now.running)) }
{
    match &seat.running {
        None => put_count(text, 0),
        Some(command) => command.peek(from, n, text),
    }
}

// What is reported of a subdevice on which commands can run, and the time that it tells. Refused with
// Access (`EACCES`) where another file runs the command.
fn report(
    alloc: Global,
    at: &At<'_>,
    question: Question,
    files: &mut Files,
    seat: &mut Seat<'_>,
    text: &mut Vec<u8>,
) -> Result<u64, NoMemory>
    requires { CanAct at.now (asked_op at.now.index question) None files.old seat.old }
    ensures text { OnOk result (Tells (report question at.now.time seat.old.running) (checked (form (asked_op at.now.index question) (here_at at.now files.old seat.old)) (here_at at.now files.old seat.old)) files.new seat.new text.old.items text.new.items) }
    ensures time { IfOk result (λ told. told ≡ told_time question at.now.time seat.old.running (checked (form (asked_op at.now.index question) (here_at at.now files.old seat.old)) (here_at at.now files.old seat.old)).answer) }
{
    match question {
        Question::Codes { n } => read_codes(at, n, files, seat, text)?,
        Question::Await { .. } | Question::Info | Question::Peek { .. } if at.is_foreign(files) => {
            put_refused(text, Errno::Access)?;
        }
        Question::Await { n } => return put_await(alloc, n, at.time, seat, text),
        Question::Info => put_info(seat, text)?,
        Question::Peek { from, n } => put_peek(from, n, seat, text)?,
    }
    Ok(at.time)
}

// What is reported once all commands are brought to the time. Refused as `At::reach` is.
fn ask_on<'a>(
    alloc: Global,
    setting: &Setting<'a>,
    asked: &Asked,
    files: &mut Files,
    seats: &mut Vec<Seat<'a>>,
    text: &mut Vec<u8>,
) -> Result<u64, NoMemory>
    requires { CanStep setting.now (session_line asked.now) None (record { files = files.old; devices = seats.old.items }) }
    ensures text { OnOk result (LeadsTelling (report asked.now.question asked.now.time (device_at seats.old.items asked.now.sub).running) (session.act setting.now (session_line asked.now) (session_line asked.now).op (record { files = files.old; devices = seats.old.items })) (record { files = files.new; devices = seats.new.items }) text.old.items text.new.items) }
    ensures time { IfOk result (λ told. told ≡ told_time asked.now.question asked.now.time (device_at seats.old.items asked.now.sub).running (session.act setting.now (session_line asked.now) (session_line asked.now).op (record { files = files.old; devices = seats.old.items })).answer) }
{
    let index = asked.sub;
    let at = match At::reach(setting, files, asked.time, asked.file, index, true) {
        Err(error) => {
            put_refused(text, error)?;
            return Ok(asked.time);
        }
        Ok(at) => at,
    };
    report(
        alloc,
        &at,
        asked.question,
        files,
        &mut seats[index as usize],
        text,
    )
}

/// Brings all commands to the time of a question, and reports what is asked. What the question's line
/// would be refused is refused here. Gives the time that the question tells.
pub(crate) fn ask<'a>(
    alloc: Global,
    setting: &Setting<'a>,
    asked: &Asked,
    files: &mut Files,
    seats: &mut Vec<Seat<'a>>,
    text: &mut Vec<u8>,
) -> Result<u64, NoMemory>
    requires come { All (HasCome asked.now.time) seats.old.items }
    requires can { CanStep setting.now (session_line asked.now) None (session.brought_all asked.now.time (record { files = files.old; devices = seats.old.items })) }
    ensures after { OnOk result (record { files = files.new; devices = seats.new.items } ≡ (session.step setting.now (session_line asked.now) (record { files = files.old; devices = seats.old.items })).state) }
    ensures text { OnOk result (text.new.items ≡ text.old.items ++ asked_text setting.now asked.now (record { files = files.old; devices = seats.old.items })) }
    ensures time { IfOk result (λ told. told ≡ asked_time setting.now asked.now (record { files = files.old; devices = seats.old.items })) }
{
    bring_all(seats, asked.time, text)?;
    ask_on(alloc, setting, asked, files, seats, text)
}
