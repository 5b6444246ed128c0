// The filter of a loop job.
ghost use Rattle.std.specs.Prelude.{◌≡◌, ◌<◌, ◌≤◌, ℕ, length, slice_index, IfOk};
ghost use Rattle.cm_cmd.specs.Entry as bits;
ghost use Rattle.cm_loop.specs.LoopText as spec;

use crate::rule::{LoopItem, LoopRule};
use cm_base::prover::shows;
use cm_base::transfer::NoMemory;
use cm_board::board::Sub;
use cm_cmd::entry::chan;
use cm_job::loop_job::LoopJob;
use std::alloc::Global;

/// The filter of a loop.
pub(crate) fn filter_of(alloc: Global, job: &LoopJob) -> Result<LoopRule, NoMemory>
    ensures { IfOk result (λ rule. rule ≡ spec.filter_of job.now) }
{
    let input = job.input_plan();
    let output = job.output_plan();
    let from = input.command();
    let to = output.command();
    let from_sub = input.sub();
    let to_sub = output.sub();
    // These reads show what holds of each subdevice.
    shows(&(from_sub.list_max, to_sub.list_max));
    let items = items_of(alloc, from_sub, to_sub, &from.list, &to.list)?;
    Ok(LoopRule {
        items,
        window: job.window,
    })
}

// The greatest codes of each entry's channels.
fn items_of(
    alloc: Global,
    input: &Sub,
    output: &Sub,
    from: &[u32],
    to: &[u32],
) -> Result<Vec<LoopItem>, NoMemory>
    requires input { (i : ℕ) → i < length from.now → bits.chan (slice_index from.now i) < input.now.channels }
    requires output { (i : ℕ) → i < length to.now → bits.chan (slice_index to.now i) < output.now.channels }
    requires length { length from.now ≡ length to.now }
    ensures { IfOk result (λ items. items.items ≡ spec.items_of input.now output.now from.now to.now) }
{
    let mut items = Vec::new(alloc);
    for i in 0..from.len() {
        items.push(LoopItem {
            in_max: input.maxdata_of(chan(from[i])),
            out_max: output.maxdata_of(chan(to[i])),
        })?;
    }
    Ok(items)
}
