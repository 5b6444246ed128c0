// The part of a dialogue before its session: the board and the signals.
ghost use Rattle.std.specs.Prelude.{◌≡◌, ◌<◌, ◌≤◌, ◌++◌, [], length, codes, IfOk, OnOk, IsErrOf};
ghost use Rattle.cm_base.specs.Causes.{Rose};
ghost use Rattle.cm_dialogue.specs.Heading.{HasHead, starts_session};

use crate::client::Client;
use crate::stop::TalkStop;
use cm_base::lines::split_lines;
use cm_base::transfer::NoMemory;
use std::alloc::Global;

// The most bytes of the part before the session.
const HEAD_LIMIT: usize = 1_048_576;

// Whether the session starts after a line.
fn starts_session(alloc: Global, bytes: &[u8]) -> Result<bool, NoMemory>
    requires { length bytes.now ≤ 1048576 }
    ensures { IfOk result (λ starts. starts ≡ starts_session bytes.now) }
{
    let lines = split_lines(alloc, bytes)?;
    let (_, place) = lines.through(alloc, b"session")?;
    let mut rest = lines.from(place);
    Ok(rest.skip())
}

/// The part of a dialogue before its session: how many lines it has, and whether the session follows.
#[derive(Clone, Copy, Debug, PartialEq, Eq)]
pub struct DialogueHead {
    pub count: u32,
    pub goes_on: bool,
}

/// Hears lines up to the one after which the session starts, or to the end of the input, and puts
/// them into `text`, which is empty.
pub fn hear_head<C: Client>(
    alloc: Global,
    client: &mut C,
    text: &mut Vec<u8>,
) -> Result<DialogueHead, TalkStop>
    requires { text.old.items ≡ [] }
    ensures head { HasHead result (C.ahead client.old) (C.ahead client.new) (C.turns client.old) (C.turns client.new) text.new.items }
    ensures short { IfOk result (λ _. length text.new.items ≤ 1048576) }
    ensures few { IfOk result (λ head. head.count ≤ 1048576) }
    ensures read_fault { IsErrOf result TalkStop.ReadFault → Rose (C.faults client.old) (C.faults client.new) }
    ensures unsaid { ¬ IsErrOf result TalkStop.WriteFault }
    ensures later { C.faults client.old ≤ C.faults client.new }
{
    let mut count = 0;
    let mut line = Vec::new(alloc);
    loop {
        line.clear();
        if !client.hear(&mut line)? {
            return Ok(DialogueHead {
                count,
                goes_on: false,
            });
        }
        put_line(text, &line)?;
        count += 1;
        if starts_session(alloc, &line)? {
            return Ok(DialogueHead {
                count,
                goes_on: true,
            });
        }
    }
}

// Appends a line and its line feed, unless the text gets too long.
fn put_line(text: &mut Vec<u8>, line: &[u8]) -> Result<(), TalkStop>
    ensures line { OnOk result (text.new.items ≡ text.old.items ++ (line.now ++ codes "\n")) }
    ensures long { IsErrOf result TalkStop.TooLong → 1048576 < length (text.old.items ++ (line.now ++ codes "\n")) }
    ensures short { OnOk result (length text.new.items ≤ 1048576) }
    ensures fault { ¬ IsErrOf result TalkStop.ReadFault }
    ensures unsaid { ¬ IsErrOf result TalkStop.WriteFault }
{
    if line.len() >= HEAD_LIMIT || text.len() >= HEAD_LIMIT - line.len() {
        return Err(TalkStop::TooLong);
    }
    text.extend_from_slice(line)?;
    text.extend_from_slice(b"\n")?;
    Ok(())
}
