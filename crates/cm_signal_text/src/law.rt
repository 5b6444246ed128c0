// Laws about the text of signals.
ghost use Rattle.cm_signal_text.specs.Refusal.{FirstIsRefused};
ghost use Rattle.cm_signal_text.specs.SoundSignals.{SignalsAreSound};

/// What is refused is the first line that fails: no reading of the lines before it fails, and
/// together with them it is refused by its cause.
pub fn first_fault_is_refused()
    ensures { FirstIsRefused }
{}

/// Signals that are read from a text are sound, and speak only of what the board has.
pub fn signals_are_sound()
    ensures { SignalsAreSound }
{}
