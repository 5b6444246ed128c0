// The dialogue of a session.
ghost use Rattle.std.specs.Prelude.{◌≡◌, ◌≤◌, IsErrOf};
ghost use Rattle.cm_base.specs.Causes.{Rose};
ghost use Rattle.cm_serve.specs.Playing.{first_play};
ghost use Rattle.cm_signal.specs.Fitting.{FitBoard};
ghost use Rattle.cm_serve.specs.Conversing.{Converses};

use crate::kept::Kept;
use crate::playing::Playing;
use crate::replying::put_reply;
use cm_board::board::BoardDesc;
use cm_dialogue::client::Client;
use cm_dialogue::stop::TalkStop;
use cm_signal::signals::Signals;
use std::alloc::Global;
use std::sync::Wait;

/// Answers the lines of a session, each before the next one is heard, until the client's input ends.
/// `first` is the number of the first line.
pub fn converse<R: Wait, C: Client>(
    rt: &R,
    alloc: Global,
    board: &BoardDesc,
    signals: &Signals,
    first: u32,
    client: &mut C,
) -> Result<(), TalkStop>
    requires { FitBoard board.now.subs signals.now }
    ensures said { Converses result (C.ahead client.old) (C.turns client.old) (C.turns client.new) (first_play (record { board = board.now; signals = signals.now })) first }
    ensures read_fault { IsErrOf result TalkStop.ReadFault → Rose (C.faults client.old) (C.faults client.new) }
    ensures write_fault { IsErrOf result TalkStop.WriteFault → Rose (C.faults client.old) (C.faults client.new) }
    ensures later { C.faults client.old ≤ C.faults client.new }
{
    let kept = Kept::new(alloc)?;
    talk(rt, alloc, &kept, board, signals, first, client)
}

// The same, with a place for the commands.
fn talk<'a, R: Wait, C: Client>(
    rt: &R,
    alloc: Global,
    kept: &'a Kept,
    board: &'a BoardDesc,
    signals: &'a Signals,
    first: u32,
    client: &mut C,
) -> Result<(), TalkStop>
    requires { FitBoard board.now.subs signals.now }
    ensures said { Converses result (C.ahead client.old) (C.turns client.old) (C.turns client.new) (first_play (record { board = board.now; signals = signals.now })) first }
    ensures read_fault { IsErrOf result TalkStop.ReadFault → Rose (C.faults client.old) (C.faults client.new) }
    ensures write_fault { IsErrOf result TalkStop.WriteFault → Rose (C.faults client.old) (C.faults client.new) }
    ensures later { C.faults client.old ≤ C.faults client.new }
{
    let mut playing = Playing::new(alloc, board, signals)?;
    let mut number = first;
    let mut line = Vec::new(alloc);
    let mut text = Vec::new(alloc);
    for _ in rt.forever() {
        line.clear();
        if !client.hear(&mut line)? {
            return Ok(());
        }
        text.clear();
        playing = put_reply(rt, alloc, kept, playing, number, &line, &mut text)?;
        client.say(&text)?;
        number = number.saturating_add(1);
    }
    unreachable!()
}
