// The text of a run, block by block.
ghost use Rattle.std.specs.Prelude.{◌≡◌, ◌≤◌, ◌++◌, [], IfOk, OnErr, OnOk};
ghost use Rattle.std.specs.Io.KnownBytes.{Appends};
ghost use Rattle.cm_base.specs.Causes.{Rose};
ghost use Rattle.cm_base.specs.Transfer.{AppendsPrefix};
ghost use Rattle.cm_text.specs.Joined.{joined};

use cm_base::outside::Sink;
use cm_base::transfer::{NoMemory, WriteFault, write_all};
use std::alloc::Global;
use std::marker::Model;

/// A text in blocks, each of which stays where it was made. Contracts see the whole text.
#[derive(Drop)]
pub struct Blocks {
    blocks: Vec<Vec<u8>>,
}

impl Model for Blocks {
    ghost use Rattle.std.specs.Prelude.{List, ℕ};
    ghost use Rattle.cm_text.specs.Joined.{joined};

    ghost Value = { List ℕ };

    ghost view = { λ b. joined b.blocks.items };
}

impl Blocks {
    /// The empty text.
    pub fn new(alloc: Global) -> Blocks
        ensures { result ≡ [] }
    {
        Blocks {
            blocks: Vec::new(alloc),
        }
    }

    /// The text with a block after it.
    #[tactic(auto, using(crate::proofs::Writing::joined_more))]
    pub fn with(mut self, block: Vec<u8>) -> Result<Blocks, NoMemory>
        ensures { IfOk result (λ longer. longer ≡ self ++ block.items) }
    {
        self.blocks.push(block)?;
        Ok(self)
    }

    /// Writes the whole text, up to the first fault.
    pub fn write<K: Sink>(&self, sink: &mut K) -> Result<(), WriteFault>
        ensures ok { OnOk result (Appends (K.text sink.old) (K.text sink.new) self.now) }
        ensures prefix { OnErr result (AppendsPrefix (K.text sink.old) (K.text sink.new) self.now) }
        ensures fault { OnErr result (Rose (K.faults sink.old) (K.faults sink.new)) }
        ensures later { K.faults sink.old ≤ K.faults sink.new }
    {
        write_blocks(sink, &self.blocks)
    }
}

// Writes blocks one after another, up to the first fault.
fn write_blocks<K: Sink>(sink: &mut K, blocks: &[Vec<u8>]) -> Result<(), WriteFault>
    ensures ok { OnOk result (Appends (K.text sink.old) (K.text sink.new) (joined blocks.now)) }
    ensures prefix { OnErr result (AppendsPrefix (K.text sink.old) (K.text sink.new) (joined blocks.now)) }
    ensures fault { OnErr result (Rose (K.faults sink.old) (K.faults sink.new)) }
    ensures later { K.faults sink.old ≤ K.faults sink.new }
{
    for i in 0..blocks.len() {
        write_all(sink, &blocks[i])?;
    }
    Ok(())
}
