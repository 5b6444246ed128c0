// What is known of a board.
ghost use Rattle.std.specs.Prelude.{◌≡◌, ◌+◌, ◌<◌, ◌^◌, ◌++◌, [], codes, length, OnOk};
ghost use Rattle.cm_board_text.specs.Printed.{version_line};
ghost use Rattle.cm_facts.specs.FactLine.{fact_line};
ghost use Rattle.cm_facts.specs.SubFacts as spec;

use crate::channel_facts::{put_channels, put_codes};
use crate::command_facts::{put_commands, put_flag, put_number};
use crate::fact::{FactWord, put_count, put_fact};
use crate::names::kind_name;
use cm_base::transfer::NoMemory;
use cm_board::board::{BoardDesc, Sub};
use cm_board::flags::Flag;
use cm_board::versions::is_wide;
use cm_signal_text::reading::greatest_horizon;

/// Appends the facts of a board.
pub(crate) fn put_board(text: &mut Vec<u8>, board: &BoardDesc) -> Result<(), NoMemory>
    ensures { OnOk result (text.new.items ≡ text.old.items ++ spec.board_facts board.now) }
{
    put_version(text, board.version)?;
    put_fact(text, b"name", &[], &[FactWord::Fixed(&board.name)])?;
    put_greatest_horizon(text, board.version)?;
    put_count(text, b"subdevices", &[], board.subs.len())?;
    put_subs(text, 0, &board.subs)
}

// Appends the words of a version.
fn put_version(text: &mut Vec<u8>, version: u32) -> Result<(), NoMemory>
    ensures { OnOk result (text.new.items ≡ text.old.items ++ fact_line (codes "version") [] (version_line version)) }
{
    if is_wide(version) {
        let words = [FactWord::Fixed(b"zendrouz"), FactWord::Fixed(b"1")];
        put_fact(text, b"version", &[], &words)
    } else {
        let words = [
            FactWord::Fixed(b"comedi"),
            FactWord::Number(u64::from(version)),
        ];
        put_fact(text, b"version", &[], &words)
    }
}

// Appends the greatest horizon that the signals of a text of this version may have.
fn put_greatest_horizon(text: &mut Vec<u8>, version: u32) -> Result<(), NoMemory>
    ensures { OnOk result (text.new.items ≡ text.old.items ++ spec.horizon_fact version) }
{
    let horizon = greatest_horizon(version);
    put_fact(text, b"greatest_horizon", &[], &[FactWord::Number(horizon)])
}

// Appends subdevices, numbered from a number on.
#[tactic(auto, using(crate::proofs::Pieces::facts_more, crate::proofs::Pieces::none_more))]
fn put_subs(text: &mut Vec<u8>, index: u32, subs: &[Sub]) -> Result<(), NoMemory>
    requires { index + length subs.now < 2 ^ 32 }
    ensures { OnOk result (text.new.items ≡ text.old.items ++ spec.subs_facts index subs.now) }
{
    match subs {
        [] => Ok(()),
        [sub, more @ ..] => {
            put_sub(text, index, sub)?;
            put_subs(text, index + 1, more)
        }
    }
}

// Appends a subdevice: what it is, its codes, what it offers, its commands, and the channels with something of their own.
#[tactic(auto, unfolding(crate::specs::SubFacts::sub_facts))]
fn put_sub(text: &mut Vec<u8>, index: u32, sub: &Sub) -> Result<(), NoMemory>
    ensures { OnOk result (text.new.items ≡ text.old.items ++ spec.sub_facts index sub.now) }
{
    put_head(text, index, sub)?;
    put_codes(text, index, sub)?;
    put_offers(text, index, sub)?;
    put_own_commands(text, index, sub)?;
    put_channels(text, index, sub, &sub.chans)
}

// Appends its kind, how many channels it has, and whether it takes commands.
#[tactic(auto, unfolding(crate::specs::SubFacts::head_facts))]
fn put_head(text: &mut Vec<u8>, index: u32, sub: &Sub) -> Result<(), NoMemory>
    ensures { OnOk result (text.new.items ≡ text.old.items ++ spec.head_facts index sub.now) }
{
    put_fact(
        text,
        b"kind",
        &[index],
        &[FactWord::Fixed(kind_name(sub.kind))],
    )?;
    put_number(text, b"channels", &[index, sub.channels])?;
    put_flag(text, b"commands", index, sub.takes_commands())
}

// Appends what a subdevice that isn't unused offers: whether its channels can be read, the references that they have,
// and whether its buffer can be mapped.
#[tactic(auto, unfolding(crate::specs::SubFacts::offer_facts))]
fn put_offers(text: &mut Vec<u8>, index: u32, sub: &Sub) -> Result<(), NoMemory>
    ensures { OnOk result (text.new.items ≡ text.old.items ++ spec.offer_facts index sub.now) }
{
    if sub.kind.is_unused() {
        return Ok(());
    }
    put_flag(text, b"readable", index, sub.has_flag(Flag::Readable))?;
    put_flag(text, b"ground", index, sub.has_flag(Flag::Ground))?;
    put_flag(text, b"common", index, sub.has_flag(Flag::Common))?;
    put_flag(text, b"diff", index, sub.has_flag(Flag::Diff))?;
    put_flag(text, b"other", index, sub.has_flag(Flag::Other))?;
    put_flag(text, b"mmap", index, sub.has_flag(Flag::Mapped))
}

// Appends what is known of its commands, if it takes any.
#[tactic(auto, unfolding(crate::specs::SubFacts::own_command_facts))]
fn put_own_commands(text: &mut Vec<u8>, index: u32, sub: &Sub) -> Result<(), NoMemory>
    ensures { OnOk result (text.new.items ≡ text.old.items ++ spec.own_command_facts index sub.now) }
{
    if sub.takes_commands() {
        put_commands(text, index, sub)
    } else {
        Ok(())
    }
}
