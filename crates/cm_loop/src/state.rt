// What a loop keeps of its input.
ghost use Rattle.std.specs.Prelude.{◌≡◌, ◌+◌, ◌%◌, ◌^◌, ◌<◌, ◌≤◌, List, ℕ, [], length, map, slice_get, Some, IfOk};
ghost use Rattle.cm_loop.specs.Entry.{EntryText, entry_text};
ghost use Rattle.cm_loop.specs.Filter.{IsItem};
ghost use Rattle.cm_loop.specs.State.{IsNext, NextOutput, StandsFor};
ghost use Rattle.cm_loop.specs.declared.rule.LoopItem.{LoopItem};

use crate::entry::Entry;
use crate::rule::{LoopItem, LoopRule};
use cm_base::prover::shows;
use cm_base::transfer::NoMemory;
use cm_sample::rule::next_index;
use std::alloc::{AllocError, Global};
use std::marker::Model;

/// What a loop keeps of its input: the last samples of each list entry.
#[derive(Drop)]
pub struct LoopState {
    entries: Vec<Entry>,
    window: u32,
    // The entry of the next sample.
    at: usize,
    count: u64,
}

impl Model for LoopState {
    ghost use Rattle.cm_loop.specs.State.{StateText, state_text, IsState};

    ghost Value = { StateText };

    ghost view = { λ s. state_text s.entries.items s.window s.count };

    ghost invariant = { λ s. IsState s.entries.items s.window s.at s.count };
}

impl LoopState {
    /// The state of a rule, with no samples yet.
    pub fn new(alloc: Global, rule: &LoopRule) -> Result<LoopState, NoMemory>
        ensures rule { IfOk result (λ s. s.rule ≡ rule.now) }
        ensures stands { IfOk result (λ s. StandsFor s []) }
    {
        let entries = entries_of(alloc, &rule.items, rule.window)?;
        Ok(LoopState {
            entries,
            window: rule.window,
            at: 0,
            count: 0,
        })
    }

    /// Takes the next sample, and gives the filter's output for it.
    #[inline(always)]
    pub fn next(&mut self, rule: &LoopRule, word: u32) -> u32
        requires rule { self.old.rule ≡ rule.now }
        requires few { self.old.count < 2 ^ 40 }
        requires fits { (item : LoopItem) → slice_get self.old.rule.items (self.old.count % length self.old.rule.items) ≡ Some item → word ≤ item.in_max }
        ensures rule { self.new.rule ≡ self.old.rule }
        ensures next { (x : List ℕ) → StandsFor self.old x → IsNext word result self.old self.new x }
    {
        // It is here for the contract alone: each entry has its item.
        shows(rule);
        let output = next_output(&mut self.entries, self.at, word);
        self.at = next_index(self.at, self.entries.len());
        self.count += 1;
        output
    }
}

// Gives a sample to one entry.
#[inline(always)]
fn next_output(entries: &mut Vec<Entry>, i: usize, word: u32) -> u32
    requires within { i < length entries.old.items }
    requires fits { (e : EntryText) → slice_get entries.old.items i ≡ Some e → word ≤ e.item.in_max }
    ensures { NextOutput i word result entries.old.items entries.new.items }
{
    let entry = &mut entries[i];
    entry.next(word)
}

// An entry without samples for each item.
fn entries_of(alloc: Global, items: &[LoopItem], window: u32) -> Result<Vec<Entry>, AllocError>
    requires window { (1 ≤ window) × (window ≤ 16) }
    requires items { (i : ℕ) (item : LoopItem) → slice_get items.now i ≡ Some item → IsItem item }
    ensures { IfOk result (λ v. v.items ≡ map (entry_text [] window) items.now) }
{
    let mut entries = Vec::new(alloc);
    for item in items {
        entries.push(Entry::new(alloc, window, *item)?)?;
    }
    Ok(entries)
}
