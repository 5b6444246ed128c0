// The text of an output command's words.
ghost use Rattle.std.specs.Prelude.{◌≡◌, ◌≤◌, ◌++◌, IfOk};
ghost use Rattle.cm_expand.specs.Items.{items_of};
ghost use Rattle.cm_expand.specs.PlanView.{plan_text};
ghost use Rattle.cm_expand.specs.Taking.{left_of};
ghost use Rattle.cm_expand.specs.Totals.{length_of};
ghost use Rattle.cm_text.specs.Blocks as blocks;
ghost use Rattle.cm_text.specs.Outputs.{output_texts};
ghost use Rattle.cm_text.specs.Tails.{tail_text};

use crate::ending::{count_of, ending};
use crate::output::put_output;
use crate::tail::{Tail, put_tail};
use cm_base::transfer::NoMemory;
use cm_expand::board::Board;
use cm_expand::plan::Plan;
use std::alloc::Global;

// How many bytes are made ready for an output's line, so that a long text is seldom moved.
const LINE: usize = 24;

// Appends the outputs of the conversions that a board has left and that have a word.
fn put_outputs(
    text: &mut Vec<u8>,
    sub: u32,
    board: Board<'_>,
    words: &[u32],
) -> Result<(), NoMemory>
    ensures { IfOk result (λ _. text.new.items ≡ text.old.items ++ output_texts (blocks.outputs_of sub (left_of board.entry) words.now)) }
{
    let mut board = board;
    for i in 0..words.len() {
        let Some(conversion) = board.next() else {
            return Ok(());
        };
        put_output(text, sub, &conversion, words[i])?;
    }
    Ok(())
}

// The end line of an output command for which so many values were given.
fn values_tail(plan: Plan<'_>, values: u64) -> Tail
    requires { length_of (plan_text plan) ≤ 4000000 }
    ensures { result ≡ blocks.values_tail (plan_text plan.entry) values }
{
    let count = count_of(&plan);
    if values < count {
        Tail::Underrun(values)
    } else {
        ending(plan, count)
    }
}

/// The block of an output command: these words at the times of its conversions, and the end line where
/// so many values were given. `sub` is its subdevice's number.
pub fn outputs_block(
    alloc: Global,
    sub: u32,
    plan: Plan<'_>,
    words: &[u32],
    values: u64,
) -> Result<Vec<u8>, NoMemory>
    requires { length_of (plan_text plan) ≤ 4000000 }
    ensures { IfOk result (λ v. v.items ≡ output_texts (blocks.outputs_of sub (items_of (plan_text plan.entry)) words.now) ++ tail_text (blocks.values_tail (plan_text plan.entry) values)) }
{
    let mut block = part_block(alloc, sub, Board::new(plan), words)?;
    put_tail(&mut block, values_tail(plan, values))?;
    Ok(block)
}

/// The lines of the outputs of the conversions that a board has left and that have a word. `sub` is the
/// command's subdevice.
pub fn part_block(
    alloc: Global,
    sub: u32,
    board: Board<'_>,
    words: &[u32],
) -> Result<Vec<u8>, NoMemory>
    ensures { IfOk result (λ v. v.items ≡ output_texts (blocks.outputs_of sub (left_of board.entry) words.now)) }
{
    let mut block = Vec::with_capacity(alloc, words.len().saturating_mul(LINE))?;
    put_outputs(&mut block, sub, board, words)?;
    Ok(block)
}

/// The end line of an output command for which so many values were given.
pub fn tail_block(alloc: Global, plan: Plan<'_>, values: u64) -> Result<Vec<u8>, NoMemory>
    requires { length_of (plan_text plan) ≤ 4000000 }
    ensures { IfOk result (λ v. v.items ≡ tail_text (blocks.values_tail (plan_text plan.entry) values)) }
{
    let mut block = Vec::new(alloc);
    put_tail(&mut block, values_tail(plan, values))?;
    Ok(block)
}
