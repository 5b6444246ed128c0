// How the word at a place of a buffer is munged.
ghost use Rattle.std.specs.Prelude.{◌≡◌, ◌+◌, ◌%◌, ◌<◌, ◌≤◌, false, length, slice_get, Some};
ghost use Rattle.cm_board.specs.Munge.{MayShift};
ghost use Rattle.cm_sample.specs.Rule.{item_word, map_from, munged_word, rule_text, IsRule};

use cm_base::prover::shows;
use cm_board::munge::{Munge, munged, unmunged};
use std::marker::Model;

/// The munge and the greatest code of one list entry's channel.
#[derive(Clone, Copy, Drop)]
pub struct MungeItem {
    pub kind: Munge,
    /// The greatest code.
    pub maxdata: u32,
}

/// The buffer's munge of one command: that of each entry's channel for an input, the way back for
/// an output, and none where the command asks for raw data.
#[derive(Drop)]
pub struct MungeRule {
    /// One item for each entry of the command's channel list.
    pub items: Vec<MungeItem>,
    /// Whether the command is one of an output subdevice.
    pub out: bool,
    /// Whether the command asks for raw data.
    pub raw: bool,
}

impl Model for MungeRule {
    ghost use Rattle.cm_sample.specs.Rule.{RuleText, rule_text};

    ghost Value = { RuleText };

    ghost view = { λ r. rule_text r.items.items r.out r.raw };
}

impl MungeRule {
    /// The munged word of a place, which counts samples from the command's start.
    pub fn apply(&self, place: u64, word: u32) -> u32
        requires { IsRule self.now }
        ensures { result ≡ munged_word self.now place word }
    {
        if self.raw {
            return word;
        }
        let item = item_at(&self.items, index_of(&self.items, place));
        munge_by(item, self.out, word)
    }

    /// Munges words at consecutive places, the first of which is `place`.
    pub fn munge_words(&self, place: u64, words: &mut [u32])
        requires { IsRule self.now }
        ensures { words.new ≡ map_from (munged_word self.now) place words.old }
    {
        if self.raw {
            return;
        }
        if self.items.len() == 1 {
            munge_alike(&self.items, self.out, place, words);
        } else {
            munge_in_turn(&self.items, self.out, place, words);
        }
    }
}

// Munges words by the only item.
fn munge_alike(items: &[MungeItem], out: bool, place: u64, words: &mut [u32])
    requires rule { IsRule (rule_text items.now out false) }
    requires alone { length items.now ≡ 1 }
    ensures { words.new ≡ map_from (munged_word (rule_text items.now out false)) place words.old }
{
    // It is here for the contract alone: each place has this item.
    shows(&place);
    let item = item_at(items, 0);
    for i in 0..words.len() {
        words[i] = munge_by(item, out, words[i]);
    }
}

// Munges words by one item after another, from that of a place on.
fn munge_in_turn(items: &[MungeItem], out: bool, place: u64, words: &mut [u32])
    requires { IsRule (rule_text items.now out false) }
    ensures { words.new ≡ map_from (munged_word (rule_text items.now out false)) place words.old }
{
    let mut index = index_of(items, place);
    for i in 0..words.len() {
        words[i] = munge_by(item_at(items, index), out, words[i]);
        index = next_index(index, items.len());
    }
}

// The number of a place's item.
fn index_of(items: &[MungeItem], place: u64) -> usize
    requires { 1 ≤ length items.now }
    ensures value { result ≡ place % length items.now }
    ensures within { result < length items.now }
{
    (place % items.len() as u64) as usize
}

/// The list index after one; after the last one of so many comes the first again.
#[inline(always)]
pub fn next_index(index: usize, len: usize) -> usize
    requires { index < len }
    ensures value { result ≡ (index + 1) % len }
    ensures within { result < len }
{
    let next = index + 1;
    if next < len { next } else { 0 }
}

#[inline(always)]
fn item_at(items: &[MungeItem], index: usize) -> MungeItem
    requires { index < length items.now }
    ensures { slice_get items.now index ≡ Some result }
{
    items[index]
}

// The munged word of an item.
#[inline(always)]
fn munge_by(item: MungeItem, out: bool, word: u32) -> u32
    requires { MayShift item.kind }
    ensures { result ≡ item_word out item word }
{
    if out {
        unmunged(item.kind, item.maxdata, word)
    } else {
        munged(item.kind, item.maxdata, word)
    }
}
