// What holds of the definitions alone.
ghost use Rattle.cm_client.specs.Waking.{KeepsWoken, NoWakeIsLost, NotBothSeeNothing};

/// What holds of a worker that sleeps and of one that wakes it, between any two steps: each step keeps it.
pub fn every_step_keeps_the_rule_of_wakes()
    ensures { KeepsWoken }
{}

/// In whatever order workers make their steps: one that sleeps while another has published something since it
/// looked is owed a wake by that one. Where none is owed, one that has looked and would fall asleep saw all.
pub fn no_wake_is_lost()
    ensures lost { NoWakeIsLost }
    ensures both { NotBothSeeNothing }
{}
