// What holds of the definitions of the rings.
ghost use Rattle.cm_ring_core.specs.Law.{StepLaw, SharedCuts, LocalCuts};

/// The rule of a shared ring holds when the ring is opened, and each kind of step keeps it.
pub fn every_step_keeps_the_rule()
    ensures { StepLaw }
{}

/// What each step of a shared ring does with its places and cells. The steps that are not named
/// change neither.
pub fn steps_cut_the_shared_ring()
    ensures { SharedCuts }
{}

/// The calls of the ring of one thread do the same with its places and cells.
pub fn calls_cut_the_local_ring()
    ensures { LocalCuts }
{}
