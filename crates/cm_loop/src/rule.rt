// The filter of a control loop.
use std::marker::Model;

/// The greatest codes of one list entry's channels.
#[derive(Clone, Copy, Drop)]
pub struct LoopItem {
    /// The greatest code of the input's channel.
    pub in_max: u32,
    /// The greatest code of the output's channel.
    pub out_max: u32,
}

/// The filter of a loop: the mean of the last samples of a list entry, moved from the input's codes
/// to the output's. There is an item at least, each greatest code is from 1 to 2^24 - 1, and the
/// window is from 1 to 16.
#[derive(Drop)]
pub struct LoopRule {
    /// One item for each entry of the two channel lists.
    pub items: Vec<LoopItem>,
    /// How many samples of an entry a mean is of, as soon as so many came.
    pub window: u32,
}

impl Model for LoopRule {
    ghost use Rattle.cm_loop.specs.Filter.{FilterText, IsFilter, filter_text};

    ghost Value = { FilterText };

    ghost view = { λ r. filter_text r.items.items r.window };

    ghost invariant = { λ r. IsFilter (filter_text r.items.items r.window) };
}
