// What a loop keeps of one list entry.
ghost use Rattle.std.specs.Prelude.{◌≡◌, ◌+◌, ◌*◌, ◌/◌, ◌<◌, ◌≤◌, [], ◌∷◌, ◌++◌, length, IfOk};
ghost use Rattle.circular_buffer.specs.Buffer.{keep_last};
ghost use Rattle.cm_loop.specs.Filter.{mean, scaled, IsItem};

use crate::rule::LoopItem;
use circular_buffer::HeapCircularBuffer;
use cm_base::divisor::Divisor;
use std::alloc::{AllocError, Global};
use std::marker::Model;

/// The last samples of one list entry, with their sum, and the quotients of the filter made ready.
#[derive(Drop)]
pub struct Entry {
    words: HeapCircularBuffer<u32>,
    sum: u64,
    item: LoopItem,
    in_max: Divisor,
    window: Divisor,
}

impl Model for Entry {
    ghost use Rattle.cm_loop.specs.Entry.{EntryText, entry_text, IsEntry};

    ghost Value = { EntryText };

    ghost view = { λ e. entry_text e.words.items e.words.capacity e.item };

    ghost invariant = { λ e. IsEntry e.words.items e.words.capacity e.item e.sum e.in_max.by e.window.by };
}

impl Entry {
    ghost use Rattle.cm_loop.specs.Entry.{entry_text, pushed};

    /// With no samples yet.
    pub fn new(alloc: Global, window: u32, item: LoopItem) -> Result<Entry, AllocError>
        requires window { (1 ≤ window) × (window ≤ 16) }
        requires item { IsItem item }
        ensures { IfOk result (λ e. e ≡ entry_text [] window item) }
    {
        let words = HeapCircularBuffer::with_capacity(alloc, window as usize)?;
        Ok(Entry {
            words,
            sum: 0,
            item,
            in_max: Divisor::new(u64::from(item.in_max)),
            window: Divisor::new(u64::from(window)),
        })
    }

    // Takes a sample, in place of the oldest one where the window is full.
    #[inline(always)]
    fn push(&mut self, word: u32)
        requires { word ≤ self.old.item.in_max }
        ensures words { self.new ≡ pushed self.old word }
        ensures some { 0 < length self.new.words }
    {
        let oldest = self.words.push_back(word);
        self.sum = self.sum + u64::from(word) - u64::from(oldest.unwrap_or(0));
    }

    // The floor of the samples' mean.
    #[inline(always)]
    fn mean(&self) -> u32
        requires { 0 < length self.now.words }
        ensures mean { result ≡ mean self.now.words }
        ensures within { result ≤ self.now.item.in_max }
    {
        quotient(self.sum, self.words.len() as u64, &self.window) as u32
    }

    // A code of the input's channel on the scale of the output's.
    #[inline(always)]
    fn scale(&self, code: u32) -> u32
        requires { code ≤ self.now.item.in_max }
        ensures { result ≡ scaled self.now.item code }
    {
        let product = u64::from(code) * u64::from(self.item.out_max);
        self.in_max.of(product) as u32
    }

    /// Takes a sample, and gives the mean of the last ones on the output's scale.
    #[inline(always)]
    pub fn next(&mut self, word: u32) -> u32
        requires { word ≤ self.old.item.in_max }
        ensures words { self.new ≡ pushed self.old word }
        ensures value { result ≡ scaled self.old.item (mean self.new.words) }
    {
        self.push(word);
        self.scale(self.mean())
    }
}

// The quotient of a sum by how many samples it is of: as many as the window has, except at the start.
#[inline(always)]
fn quotient(sum: u64, count: u64, window: &Divisor) -> u64
    requires { 1 ≤ count }
    ensures { result ≡ sum / count }
{
    if count == window.by() {
        window.of(sum)
    } else {
        sum / count
    }
}
