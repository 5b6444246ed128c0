// A text as numbered lines of words.
ghost use Rattle.std.specs.Prelude.{◌≡◌, [], ◌||◌, IsTrue};
ghost use Rattle.std.specs.List.{list_all};
ghost use Rattle.cm_base.specs.Lines.{is_word};

pub use crate::cursor::{Cursor, Lines, split_lines};
use std::alloc::Global;

/// One line of a text. The words of a line that isn't bad are printable bytes, at least one in each.
#[derive(Drop)]
pub struct Line<'a> {
    pub number: u32,
    pub words: Vec<&'a [u8]>,
    pub bad: bool,
    ghost clean: { IsTrue (bad || list_all (λ word. is_word word.now) words.items) },
}

impl<'a> Line<'a> {
    /// A line without words, for a cursor to fill.
    pub fn empty(alloc: Global) -> Line<'a>
        ensures { result.words.items ≡ [] }
    {
        Line {
            number: 0,
            words: Vec::new(alloc),
            bad: false,
        }
    }
}
