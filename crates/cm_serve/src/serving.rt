// A dialogue from its first line on.
ghost use Rattle.std.specs.Prelude.{◌≡◌, ◌≤◌, length, IfOk, IsErrOf};
ghost use Rattle.cm_base.specs.Causes.{Rose};
ghost use Rattle.cm_base.specs.ReadStop.{Gives};
ghost use Rattle.cm_signal.specs.Fitting.{FitBoard};
ghost use Rattle.cm_serve.specs.Served.{Declines, Holds, Serves, exit_status};
ghost use Rattle.cm_serve.specs.Serving.{setting_of};

use crate::conversing::converse;
use cm_base::faults::{Fault, ReadStop, Refused};
use cm_base::lines::split_lines;
use cm_base::transfer::{NoMemory, WriteFault};
use cm_board::board::BoardDesc;
use cm_board_text::reading::read_board;
use cm_dialogue::client::Client;
use cm_dialogue::heading::hear_head;
use cm_dialogue::stop::{ServeStop, TalkStop};
use cm_signal::signals::Signals;
use cm_signal_text::reading::read_signals;
use cm_text::declining::refusal;
use std::alloc::Global;
use std::sync::Wait;

// What is reported where a line, or the part before the session, is too long.
const TOO_LONG: Refused = Refused {
    line: 0,
    cause: Fault::TooLong,
};

/// How a dialogue ended.
#[derive(Clone, Copy, Debug, PartialEq, Eq)]
pub enum Served {
    /// The client's input ended.
    Done,
    /// The board or the signals were refused, or a line was too long.
    Refused,
    /// The input failed.
    ReadFault,
    /// The output failed.
    WriteFault,
    /// Memory ran out.
    NoMemory,
}

/// Holds a dialogue. The client's first lines, up to one that starts with `session`, are a board and
/// its signals; then each line is answered before the next one is heard.
pub fn serve<R: Wait, C: Client>(rt: &R, alloc: Global, client: &mut C) -> Served
    ensures said { Serves result (C.ahead client.old) (C.turns client.old) (C.turns client.new) }
    ensures read_fault { result ≡ Served.ReadFault → Rose (C.faults client.old) (C.faults client.new) }
    ensures write_fault { result ≡ Served.WriteFault → Rose (C.faults client.old) (C.faults client.new) }
{
    match hold(rt, alloc, client) {
        Ok(()) => Served::Done,
        Err(ServeStop::Refused(refused)) => decline(alloc, client, refused),
        Err(ServeStop::Cut(TalkStop::NoMemory)) => Served::NoMemory,
        Err(ServeStop::Cut(TalkStop::ReadFault)) => Served::ReadFault,
        Err(ServeStop::Cut(TalkStop::WriteFault)) => Served::WriteFault,
        Err(ServeStop::Cut(TalkStop::TooLong)) => decline(alloc, client, TOO_LONG),
    }
}

// The same, before it is reported to the client why it is refused.
fn hold<R: Wait, C: Client>(rt: &R, alloc: Global, client: &mut C) -> Result<(), ServeStop>
    ensures said { Holds result (C.ahead client.old) (C.turns client.old) (C.turns client.new) }
    ensures read_fault { IsErrOf result (ServeStop.Cut TalkStop.ReadFault) → Rose (C.faults client.old) (C.faults client.new) }
    ensures write_fault { IsErrOf result (ServeStop.Cut TalkStop.WriteFault) → Rose (C.faults client.old) (C.faults client.new) }
    ensures later { C.faults client.old ≤ C.faults client.new }
{
    let mut text = Vec::new(alloc);
    let head = hear_head(alloc, client, &mut text)?;
    let (board, signals) = read_setting(alloc, &text)?;
    if !head.goes_on {
        return Ok(());
    }
    converse(rt, alloc, &board, &signals, head.count + 1, client)?;
    Ok(())
}

// The board and the signals of a text.
fn read_setting(alloc: Global, text: &[u8]) -> Result<(BoardDesc, Signals), ReadStop>
    requires { length text.now ≤ 1048576 }
    ensures value { Gives (λ s. record { board = s.0; signals = s.1 }) result (setting_of text.now) }
    ensures fits { IfOk result (λ s. FitBoard s.0.subs s.1) }
{
    let lines = split_lines(alloc, text)?;
    let (board, at) = read_board(alloc, &lines)?;
    let (signals, _) = read_signals(alloc, &board, &lines, at)?;
    Ok((board, signals))
}

// Reports to a client why it is refused.
fn decline<C: Client>(alloc: Global, client: &mut C, refused: Refused) -> Served
    ensures said { Declines result refused (C.turns client.old) (C.turns client.new) }
    ensures write_fault { result ≡ Served.WriteFault → Rose (C.faults client.old) (C.faults client.new) }
    ensures no_memory { result ≡ Served.NoMemory → C.faults client.new ≡ C.faults client.old }
{
    match refusal(alloc, refused) {
        Err(NoMemory) => Served::NoMemory,
        Ok(text) => match client.say(&text) {
            Ok(()) => Served::Refused,
            Err(WriteFault) => Served::WriteFault,
        },
    }
}

/// The number with which a program ends that has held a dialogue.
pub fn exit_status(served: Served) -> u8
    ensures { result ≡ exit_status served }
{
    match served {
        Served::Done => 0,
        Served::Refused => 1,
        Served::ReadFault => 3,
        Served::WriteFault => 4,
        Served::NoMemory => 5,
    }
}
