// What holds of the definitions alone.
ghost use Rattle.cm_serve.specs.Law.{AnswersAsReplay, RecordReplays};
ghost use Rattle.cm_serve.specs.Soonest.{AwaitLaw};

/// A dialogue whose lines are those of a session answers as `replay` does.
pub fn a_dialogue_replays()
    ensures { AnswersAsReplay }
{}

/// The record of a dialogue, with each question as the line that it is in other words, is a session
/// whose replay gives the dialogue's answers to lines of the session, and leaves the same state.
pub fn the_record_replays()
    ensures { RecordReplays }
{}

/// At every line of a session: what is awaited of a command isn't there before the time that is
/// reported, and is there at that time, or the command has ended by then, or the signals end.
pub fn an_await_ends_as_soon_as_it_can()
    ensures { AwaitLaw }
{}
