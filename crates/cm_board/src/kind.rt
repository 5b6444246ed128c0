// What the kind of a subdevice says of it.
ghost use Rattle.std.specs.Prelude.{◌≡◌};
ghost use Rattle.cm_board.specs.Board as spec;

use crate::board::Kind;

impl Kind {
    /// Whether the subdevice is there in name alone.
    pub fn is_unused(self) -> bool
        ensures { result ≡ spec.is_unused self }
    {
        matches!(self, Kind::Unused)
    }

    /// Whether its channels are one bit.
    pub fn is_digital(self) -> bool
        ensures { result ≡ spec.is_digital self }
    {
        matches!(self, Kind::Di | Kind::Do | Kind::Dio)
    }

    /// Whether its channels can be made inputs or outputs.
    pub fn is_dio(self) -> bool
        ensures { result ≡ spec.is_dio self }
    {
        matches!(self, Kind::Dio)
    }

    /// Whether its samples go out.
    pub fn is_output(self) -> bool
        ensures { result ≡ spec.is_output self }
    {
        matches!(self, Kind::Ao | Kind::Do)
    }

    /// Whether its channels have levels from outside.
    pub fn has_levels(self) -> bool
        ensures { result ≡ spec.has_levels self }
    {
        matches!(self, Kind::Ai | Kind::Di | Kind::Dio)
    }

    /// Whether a subdevice of this kind may take commands.
    pub fn may_command(self) -> bool
        ensures { result ≡ spec.may_command self }
    {
        !matches!(self, Kind::Unused | Kind::Dio)
    }

    /// Whether its samples may come through a hardware FIFO.
    pub fn may_fifo(self) -> bool
        ensures { result ≡ spec.may_fifo self }
    {
        matches!(self, Kind::Ai | Kind::Di)
    }
}
