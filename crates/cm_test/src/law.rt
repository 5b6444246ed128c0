// What holds of the definitions alone.
ghost use Rattle.cm_test.specs.Law.{PassedIsInside, RepairedKeepsEdges, RepairedPasses, RoundedPasses, RoundedSettles};
ghost use Rattle.cm_test.specs.Law.{RoundedIsPossible, RoundedIsTime, RoundedStaysBetween, RoundedToTick, RoundingIsAsNamed};
ghost use Rattle.cm_test.specs.Passed.{PassedIsTaken};

/// A command that the test has adjusted passes the steps up to that one. Where lines can be inverted,
/// a repaired argument asks for the same edges as before.
pub fn an_adjusted_command_passes()
    ensures repaired { RepairedPasses }
    ensures edges { RepairedKeepsEdges }
    ensures rounded { RoundedPasses }
    ensures settled { RoundedSettles }
{}

/// A command that passes the first three steps has its arguments between their limits, and its lines exist.
pub fn a_passed_command_is_inside()
    ensures { PassedIsInside }
{}

/// A command that passes the whole test has one of its subdevice's sources at each trigger, its
/// arguments between their limits, and a list of entries that the subdevice has.
pub fn what_passes_is_taken()
    ensures { PassedIsTaken }
{}

/// A time is rounded up to the least that timers can make not below it, down to the greatest not
/// above it, or to the nearest one, where a half goes up, or down where that is asked for. So a rounded
/// time can be made. It still can when it is moved between two limits with a time between them that can
/// be made, where they needn't be such times. Limits that can be made move no rounded time.
pub fn rounding_is_as_named()
    ensures named { RoundingIsAsNamed }
    ensures made { RoundedIsTime }
    ensures possible { RoundedIsPossible }
    ensures unmoved { RoundedStaysBetween }
{}

/// On a board without counters, whose limits are multiples of its tick, a rounded time is a quotient
/// times the tick: a time plus half a tick for the nearest one, the time alone for the one below, and
/// the time plus a tick less one for the one above.
pub fn plain_rounding_divides()
    ensures { RoundedToTick }
{}
