// Lines of a block with how many there are of each row, so that no row's lines are counted again and again.
ghost use Rattle.std.specs.Prelude.{◌≡◌, length};
ghost use Rattle.cm_board.specs.Slots.{of_row};

use cm_board::items::Item;
use std::alloc::{AllocError, Global};
use std::marker::Model;

/// Lines, with a count for each of the first rows.
#[derive(Drop)]
pub(crate) struct Tally {
    items: Vec<Item>,
    counts: Vec<usize>,
}

impl Model for Tally {
    ghost use Rattle.std.specs.Prelude.{List};
    ghost use Rattle.cm_board.specs.Items.{ItemText};
    ghost use Rattle.cm_board_text.specs.Counts.{AreCounts};

    ghost Value = { List ItemText };

    ghost view = { λ t. t.items.items };

    ghost invariant = { λ t. AreCounts t.counts.items t.items.items };
}

impl Tally {
    ghost use Rattle.std.specs.Prelude.{◌≡◌, ◌++◌, ◌∷◌, [], length, IfOk, OnOk};
    ghost use Rattle.cm_board.specs.Slots.{of_row};

    /// No lines, with counts for so many rows.
    pub(crate) fn new(alloc: Global, rows: usize) -> Result<Tally, AllocError>
        ensures { IfOk result (λ tally. tally ≡ []) }
    {
        let counts = vec![in alloc; 0usize; rows]?;
        Ok(Tally {
            items: Vec::new(alloc),
            counts,
        })
    }

    /// The lines.
    pub(crate) fn items(&self) -> &[Item]
        ensures { result.now ≡ self.now }
    {
        &self.items
    }

    /// How many of them are of the row at a place.
    pub(crate) fn count(&self, at: usize) -> usize
        ensures { result ≡ length (of_row at self.now) }
    {
        if at < self.counts.len() {
            self.counts[at]
        } else {
            count(&self.items, at)
        }
    }

    /// Adds a line.
    pub(crate) fn push(&mut self, item: Item) -> Result<(), AllocError>
        ensures { OnOk result (self.new ≡ self.old ++ item ∷ []) }
    {
        let row = item.row;
        self.items.push(item)?;
        if row < self.counts.len() {
            self.counts[row] += 1;
        }
        Ok(())
    }
}

// How many of these lines are of the row at a place.
fn count(items: &[Item], at: usize) -> usize
    ensures { result ≡ length (of_row at items.now) }
{
    let mut count = 0;
    for item in items {
        if item.row == at {
            count += 1;
        }
    }
    count
}
