// The munge of a command's buffer.
ghost use Rattle.std.specs.Prelude.{◌≡◌, ◌<◌, ℕ, length, map, slice_index, IfOk};
ghost use Rattle.cm_cmd.specs.Entry as bits;
ghost use Rattle.cm_sample.specs.Rule.{munged_word};
ghost use Rattle.cm_test.specs.Questions.{tested};
ghost use Rattle.cm_expand.specs.Rule as spec;

use cm_base::transfer::NoMemory;
use cm_board::board::{Kind, Sub};
use cm_cmd::entry::chan;
use cm_sample::rule::{MungeItem, MungeRule};
use cm_test::test::Accepted;
use std::alloc::Global;

/// The command flag that asks for words which aren't munged (Comedi: `CMDF_RAWDATA`).
const RAWDATA: u32 = 0x80;

/// The munge of the buffer of an accepted command.
pub fn rule_of(alloc: Global, sub: &Sub, cmd: &Accepted) -> Result<MungeRule, NoMemory>
    requires { (tested sub.now cmd.now).0 ≡ 0 }
    ensures rule { IfOk result (λ rule. rule ≡ spec.rule_of sub.now cmd.now) }
    ensures applies { IfOk result (λ rule. (place word : ℕ) → munged_word rule place word ≡ spec.munged_at sub.now cmd.now place word) }
{
    let out = sub.kind.is_output();
    let cmd = cmd.cmd();
    let items = items_of(alloc, sub, &cmd.list)?;
    Ok(MungeRule {
        items,
        out,
        raw: is_raw(cmd.flags),
    })
}

// The munge of each entry of a list.
fn items_of(alloc: Global, sub: &Sub, list: &[u32]) -> Result<Vec<MungeItem>, NoMemory>
    requires { (i : ℕ) → i < length list.now → bits.chan (slice_index list.now i) < sub.now.channels }
    ensures { IfOk result (λ items. items.items ≡ map (spec.item_of sub.now) list.now) }
{
    let mut items = Vec::new(alloc);
    for entry in list {
        items.push(item_of(sub, chan(*entry)))?;
    }
    Ok(items)
}

// The munge of a channel.
fn item_of(sub: &Sub, channel: u32) -> MungeItem
    requires { channel < sub.now.channels }
    ensures { result ≡ spec.channel_item sub.now channel }
{
    MungeItem {
        kind: sub.munge_of(channel),
        maxdata: sub.maxdata_of(channel),
    }
}

/// Whether the flags of a command ask for words that aren't munged.
pub fn is_raw(flags: u32) -> bool
    ensures { result ≡ spec.is_raw flags }
{
    flags / RAWDATA % 2 == 1
}
