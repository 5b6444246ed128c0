// The line that ends a block of samples or of outputs.
ghost use Rattle.std.specs.Prelude.{◌≡◌, ◌++◌, OnOk};
ghost use Rattle.cm_text.specs.Tails.{tail_text};

use crate::end::{End, put_counted, put_end_line};
use cm_base::transfer::NoMemory;

/// How a block of lines ends.
#[derive(Clone, Copy, Debug, PartialEq, Eq)]
pub enum Tail {
    /// The whole expansion stands there, and nothing of it is cut off.
    Done,
    /// The whole expansion stands there. The horizon came first, or nothing stops the command.
    Dry,
    /// A sample came and found no room. This many stand before it.
    Overrun(u64),
    /// This many samples were taken, as was asked for, and there are more.
    Taken(u64),
    /// A word had to be put out and wasn't there. This many stand before it.
    Underrun(u64),
}

/// Appends the line that ends a block.
pub fn put_tail(text: &mut Vec<u8>, tail: Tail) -> Result<(), NoMemory>
    ensures { OnOk result (text.new.items ≡ text.old.items ++ tail_text tail) }
{
    match tail {
        Tail::Done => put_end_line(text, End::Done),
        Tail::Dry => put_end_line(text, End::Dry),
        Tail::Overrun(count) => put_end_line(text, End::Overrun(count)),
        Tail::Taken(count) => {
            put_counted(text, b"taken ", count)?;
            text.extend_from_slice(b"\n")?;
            Ok(())
        }
        Tail::Underrun(count) => put_end_line(text, End::Underrun(count)),
    }
}
