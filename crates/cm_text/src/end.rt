// How a command ends, in words.
ghost use Rattle.std.specs.Prelude.{◌≡◌, ◌++◌, codes, OnOk};
ghost use Rattle.std.specs.Fmt.{decimal};
ghost use Rattle.cm_text.specs.Tails.{end_words};

use cm_base::numbers::put_u64;
use cm_base::transfer::NoMemory;

/// Why a command has ended.
#[derive(Clone, Copy, Debug, PartialEq, Eq)]
pub enum End {
    /// All conversions of its stop count have come, or its stop edge.
    Done,
    /// The horizon came first, or nothing stops the command.
    Dry,
    /// A sample came and found no room. This many were written before it.
    Overrun(u64),
    /// A sample had to be put out and wasn't there. This many were marked before it.
    Underrun(u64),
    /// A sample was lost in the board's own FIFO. This many reached the buffer before it.
    Fifo(u64),
}

/// Appends the words of an end, as `overrun 7`.
pub fn put_end_words(text: &mut Vec<u8>, end: End) -> Result<(), NoMemory>
    ensures { OnOk result (text.new.items ≡ text.old.items ++ end_words end) }
{
    match end {
        End::Done => text.extend_from_slice(b"done")?,
        End::Dry => text.extend_from_slice(b"dry")?,
        End::Overrun(count) => put_counted(text, b"overrun ", count)?,
        End::Underrun(count) => put_counted(text, b"underrun ", count)?,
        End::Fifo(count) => put_counted(text, b"fifo ", count)?,
    }
    Ok(())
}

/// Appends the words of an end as a line.
pub fn put_end_line(text: &mut Vec<u8>, end: End) -> Result<(), NoMemory>
    ensures { OnOk result (text.new.items ≡ text.old.items ++ (end_words end ++ codes "\n")) }
{
    put_end_words(text, end)?;
    text.extend_from_slice(b"\n")?;
    Ok(())
}

/// Appends a word, as `overrun `, and a count.
pub(crate) fn put_counted(text: &mut Vec<u8>, word: &[u8], count: u64) -> Result<(), NoMemory>
    ensures { OnOk result (text.new.items ≡ text.old.items ++ (word.now ++ decimal count)) }
{
    text.extend_from_slice(word)?;
    put_u64(text, count)
}
