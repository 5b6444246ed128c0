// What holds of the definitions alone.
ghost use Rattle.cm_sub.specs.Laws.{HomeHasState, OneHolder, OutWhereHeld};
ghost use Rattle.cm_sub.specs.Stepping.{OneHolderAlways, RuleAlways, StepLaw};

/// Between any two steps on the turns no two seats hold the same place, a turn is out exactly where
/// a seat holds its place, and a place whose turn is at home has a state with its channels.
pub fn turns_go_by_the_holders()
    ensures one { OneHolder }
    ensures out { OutWhereHeld }
    ensures home { HomeHasState }
{}

/// The rule of the turns holds when the places are opened, and each kind of step keeps it.
pub fn every_step_keeps_the_rule()
    ensures { StepLaw }
{}

/// From the opening on, whatever steps the seats make, in any order, the rule holds, and no two
/// seats hold the same place.
pub fn any_steps_keep_one_holder()
    ensures rule { RuleAlways }
    ensures one { OneHolderAlways }
{}
