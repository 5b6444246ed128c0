// What a line of a block says.
ghost use Rattle.std.specs.Prelude.{◌≡◌, IfOk};

use crate::table::Value;
use smallvec::SmallVec;
use std::alloc::{AllocError, Global};
use std::marker::Model;

/// What a line says: the place of its row among those that are laid out for the block, that of its
/// form in the table, and its values.
#[derive(Drop)]
pub struct Item {
    pub row: usize,
    pub form: usize,
    pub values: SmallVec<Value, 4>,
}

impl Model for Item {
    ghost use Rattle.cm_board.specs.Items.{ItemText};

    ghost Value = { ItemText };

    ghost use Rattle.cm_board.specs.ItemView.{item_text};

    ghost view = { item_text };
}

impl Item {
    ghost use Rattle.std.specs.Prelude.{◌≡◌, IfOk};

    /// What a line of a row and a form says with these values.
    pub fn new(alloc: Global, row: usize, form: usize, values: &[Value]) -> Result<Item, AllocError>
        ensures { IfOk result (λ item. item ≡ record { row = row; form = form; values = values.now }) }
    {
        let values = copies(alloc, values)?;
        Ok(Item { row, form, values })
    }
}

// Values, copied.
fn copies(alloc: Global, values: &[Value]) -> Result<SmallVec<Value, 4>, AllocError>
    ensures { IfOk result (λ copies. copies.items ≡ values.now) }
{
    let mut copies = SmallVec::new(alloc);
    for value in values {
        let value = value.copy(alloc)?;
        copies.push(value)?;
    }
    Ok(copies)
}
