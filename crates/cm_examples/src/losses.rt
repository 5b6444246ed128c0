// Which samples a ring can lose.
ghost use Rattle.cm_examples.specs.Losses.{LossesCanCome};

/// A ring that isn't paced can lose each sample that comes after as many as it has cells: some order of
/// its steps ends with `overrun k`. So no text that a free line may have is one that never comes.
pub fn losses_can_come()
    ensures { LossesCanCome }
{}
