// What lines that have run give.
ghost use Rattle.std.specs.Prelude.{◌≡◌, ◌++◌, IfOk};
ghost use Rattle.std.specs.List.{flat_map};
ghost use Rattle.cm_run.specs.Ran.{as_list};

use cm_base::transfer::NoMemory;
use cm_expand::plan::Plan;
use cm_ring::reader::Reader;
use cm_text::blocks::Blocks;
use std::alloc::Global;

/// A line's block, with the reader of its ring where it is a `go` line.
#[derive(Drop)]
pub struct LineDone<'a> {
    pub block: Vec<u8>,
    pub reader: Option<Reader<Plan<'a>>>,
}

/// The text of a run, with the readers of the `go` lines' rings in the order of the lines.
#[derive(Drop)]
pub struct Ran<'a> {
    pub text: Blocks,
    pub readers: Vec<Reader<Plan<'a>>>,
}

// Adds a line after others.
fn add_line<'a>(before: Ran<'a>, done: LineDone<'a>) -> Result<Ran<'a>, NoMemory>
    ensures text { IfOk result (λ r. r.text ≡ before.entry.text ++ done.entry.block.items) }
    ensures readers { IfOk result (λ r. r.readers.items ≡ before.entry.readers.items ++ as_list done.entry.reader) }
{
    let Ran { text, mut readers } = before;
    let LineDone { block, reader } = done;
    let text = text.with(block)?;
    if let Some(reader) = reader {
        readers.push(reader)?;
    }
    Ok(Ran { text, readers })
}

/// The blocks of lines one after another, and their readers.
pub(crate) fn all_ran<'a>(alloc: Global, lines: Vec<LineDone<'a>>) -> Result<Ran<'a>, NoMemory>
    ensures { IfOk result (λ r. (r.text ≡ flat_map (λ d. d.block.items) lines.entry.items) × (r.readers.items ≡ flat_map (λ d. as_list d.reader) lines.entry.items)) }
{
    let mut ran = Ran {
        text: Blocks::new(alloc),
        readers: Vec::new(alloc),
    };
    for done in lines {
        ran = add_line(ran, done)?;
    }
    Ok(ran)
}
