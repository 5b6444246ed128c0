// The versions of board texts.
ghost use Rattle.std.specs.Prelude.{◌≡◌};
ghost use Rattle.cm_board.specs.Versions as spec;

/// Whether texts of a version are the wider ones: those that begin with `zendrouz 1`, which is the
/// third version.
pub fn is_wide(version: u32) -> bool
    ensures { result ≡ spec.is_wide version }
{
    3 <= version
}

/// The greater of two limits in the wider texts, and the other before.
pub(crate) fn most_in(version: u32, most: u32, wide: u32) -> u32
    ensures { result ≡ spec.most_in version most wide }
{
    if is_wide(version) { wide } else { most }
}

/// How many entries the list of a command may have in texts of a version.
pub fn most_entries(version: u32) -> usize
    ensures { result ≡ spec.most_entries version }
{
    most_in(version, 256, 1024) as usize
}

/// How many external lines a board may have in texts of a version.
pub fn most_lines(version: u32) -> u32
    ensures { result ≡ spec.most_lines version }
{
    most_in(version, 16, 64)
}
