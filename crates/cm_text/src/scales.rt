// The scales of a channel list, for many samples one after another.
ghost use Rattle.std.specs.Prelude.{◌≡◌, ◌<◌, ℕ, length, slice_index, IfOk};
ghost use Rattle.cm_board.specs.Board.{maxdata_of, range_count, range_of};
ghost use Rattle.cm_cmd.specs.Entry as bits;
ghost use Rattle.cm_text.specs.Scales.{AreScales, IsScaleOf};

use cm_base::transfer::NoMemory;
use cm_board::board::Sub;
use cm_cmd::entry::{chan, range};
use cm_sample::scale::Scale;
use std::alloc::Global;

/// The scale of each list entry's channel and range, whose quotients are made once.
pub fn scales_of(alloc: Global, sub: &Sub, list: &[u32]) -> Result<Vec<Scale>, NoMemory>
    requires channels { (i : ℕ) → i < length list.now → bits.chan (slice_index list.now i) < sub.now.channels }
    requires ranges { (i : ℕ) → i < length list.now → bits.range (slice_index list.now i) < range_count sub.now (bits.chan (slice_index list.now i)) }
    ensures { IfOk result (λ scales. AreScales sub.now list.now scales.items) }
{
    let mut scales = Vec::new(alloc);
    for entry in list {
        scales.push(scale_of(sub, *entry))?;
    }
    Ok(scales)
}

// The scale of the channel and the range of a list entry.
fn scale_of(sub: &Sub, entry: u32) -> Scale
    requires chan { bits.chan entry < sub.now.channels }
    requires range { bits.range entry < range_count sub.now (bits.chan entry) }
    ensures { IsScaleOf sub.now entry result }
{
    let chan = chan(entry);
    let range = sub.range_of(chan, range(entry));
    Scale::new(&range, sub.maxdata_of(chan))
}
