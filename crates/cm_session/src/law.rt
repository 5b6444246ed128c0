// What holds of every session.
ghost use Rattle.cm_session.specs.Law.{FirstLineIsRefused, InsnReadsTheSame, SessionsAreInOrder};

/// What a session of instructions reads, a session of all kinds reads the same.
pub fn instructions_read_the_same()
    ensures { InsnReadsTheSame }
{}

/// A session is refused at its first line that fails, whatever stands after it.
pub fn the_first_failing_line_is_refused()
    ensures { FirstLineIsRefused }
{}

/// The lines of a session that is read from a text are in order. None is after the horizon, and each
/// is within the limits of its form.
pub fn sessions_are_in_order()
    ensures { SessionsAreInOrder }
{}
