// The first line of some bytes.
ghost use Rattle.std.specs.Prelude.{◌≡◌};
ghost use Rattle.std.specs.List.{before_first, position};
ghost use Rattle.cm_base.specs.Lines.{is_line_feed};

use cm_base::lanes::first_byte;

/// The bytes before the first line feed, or all where there is none.
pub(crate) fn first_line(bytes: &[u8]) -> &[u8]
    ensures { result.now ≡ before_first is_line_feed bytes.now }
{
    match line_end(bytes) {
        Some(at) => &bytes[..at],
        None => bytes,
    }
}

// The place of the first line feed.
fn line_end(bytes: &[u8]) -> Option<usize>
    ensures { result ≡ position is_line_feed bytes.now }
{
    first_byte(bytes, b'\n')
}
