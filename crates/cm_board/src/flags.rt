// What a subdevice offers, as Comedi's flags of a subdevice tell it.
ghost use Rattle.std.specs.Prelude.{◌≡◌};
ghost use Rattle.std.specs.List.{list_any};
ghost use Rattle.cm_board.specs.Flags as spec;

use crate::board::{Kind, Sub};
use crate::items::Item;
use crate::lines::FLAG;
use crate::said::{has_line, name_at};

/// Something that a subdevice offers, which a line `flag` can name.
#[derive(Clone, Copy)]
pub enum Flag {
    /// Its channels can be read (Comedi: `SDF_READABLE`).
    Readable,
    /// Channels refer to the ground of the board (`SDF_GROUND`).
    Ground,
    /// Channels refer to a common input (`SDF_COMMON`).
    Common,
    /// Channels are differences of two inputs (`SDF_DIFF`).
    Diff,
    /// Channels have another reference (`SDF_OTHER`).
    Other,
    /// The buffer can be mapped (`SDF_MMAP`).
    Mapped,
}

impl Flag {
    // Its place among the names of the line.
    fn place(self) -> usize
        ensures { result ≡ spec.flag_place self }
    {
        match self {
            Flag::Readable => 0,
            Flag::Ground => 1,
            Flag::Common => 2,
            Flag::Diff => 3,
            Flag::Other => 4,
            Flag::Mapped => 5,
        }
    }
}

impl Kind {
    // Whether channels of this kind can be read, if no line says so.
    fn is_read(self) -> bool
        ensures { result ≡ spec.is_read self }
    {
        !matches!(self, Kind::Unused | Kind::Do)
    }

    // Whether channels of this kind have references.
    fn is_analog(self) -> bool
        ensures { result ≡ spec.is_analog self }
    {
        matches!(self, Kind::Ai | Kind::Ao)
    }
}

// Whether a line names the flag at this place.
fn says_flag(item: &Item, place: usize) -> bool
    ensures { result ≡ spec.says_flag place item.now }
{
    item.row == FLAG && name_at(item.values.as_slice(), 0) == place
}

// Whether some line of a block names the flag at this place.
fn have_flag(items: &[Item], place: usize) -> bool
    ensures { result ≡ list_any (spec.says_flag place) items.now }
{
    items.iter().any(|item| says_flag(item, place))
}

impl Sub {
    /// Whether the subdevice offers something: whether a line `flag` of its block names it, or, if the
    /// block has no such line, whether its kind and its commands do. (Comedi: `comedi_get_subdevice_flags`)
    pub fn has_flag(&self, flag: Flag) -> bool
        ensures { result ≡ spec.has_flag self.now flag }
    {
        if has_line(&self.block, FLAG) {
            have_flag(&self.block, flag.place())
        } else {
            self.may_offer(flag)
        }
    }

    // Whether a subdevice offers something where no line says what it offers.
    fn may_offer(&self, flag: Flag) -> bool
        ensures { result ≡ spec.may_offer self.now flag }
    {
        match flag {
            Flag::Readable => self.kind.is_read(),
            Flag::Mapped => self.takes_commands(),
            _ => self.kind.is_analog(),
        }
    }
}
