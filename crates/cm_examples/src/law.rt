// Made by tools/make_examples: for each worked example the definitions give the stored answer.
ghost use Rattle.cm_examples.specs.Examples.{AreExamples};
ghost use Rattle.cm_examples.specs.Boards.{AreBoards};
ghost use Rattle.cm_examples.specs.Buffers.{AreBuffers};
ghost use Rattle.cm_examples.specs.Clock.{AreClock};
ghost use Rattle.cm_examples.specs.Commands.{AreCommands};
ghost use Rattle.cm_examples.specs.Jobs.{AreJobs};
ghost use Rattle.cm_examples.specs.Limits.{AreLimits};
ghost use Rattle.cm_examples.specs.LimitsLines.{AreLimitsLines};
ghost use Rattle.cm_examples.specs.Lists.{AreLists};
ghost use Rattle.cm_examples.specs.Records.{AreRecords};
ghost use Rattle.cm_examples.specs.Refused.{AreRefused};
ghost use Rattle.cm_examples.specs.Sessions.{AreSessions};
ghost use Rattle.cm_examples.specs.Threads.{AreThreads};
ghost use Rattle.cm_examples.specs.Wide.{AreWide};

/// The 15 examples of `examples` have the stored answers.
pub fn the_examples_compute()
    ensures { AreExamples }
{}

/// The 13 examples of `examples/boards`, each with its session, have the stored answers.
pub fn the_boards_compute()
    ensures { AreBoards }
{}

/// The 1 examples of `tests/buffers.rows` have the stored answers.
pub fn the_buffers_compute()
    ensures { AreBuffers }
{}

/// The 110 examples of `tests/clock.rows` have the stored answers.
pub fn the_clock_compute()
    ensures { AreClock }
{}

/// The 22 examples of `tests/commands.rows` have the stored answers.
pub fn the_commands_compute()
    ensures { AreCommands }
{}

/// The 49 examples of `tests/jobs.rows` have the stored answers.
pub fn the_jobs_compute()
    ensures { AreJobs }
{}

/// The 124 examples of `tests/limits.rows` have the stored answers.
pub fn the_limits_compute()
    ensures { AreLimits }
{}

/// The 36 examples of `tests/limits_lines.rows` have the stored answers.
pub fn the_limits_lines_compute()
    ensures { AreLimitsLines }
{}

/// The 48 examples of `tests/lists.rows` have the stored answers.
pub fn the_lists_compute()
    ensures { AreLists }
{}

/// The 25 examples of `tests/records.rows` have the stored answers.
pub fn the_records_compute()
    ensures { AreRecords }
{}

/// The 261 examples of `tests/refused.rows` have the stored answers.
pub fn the_refused_compute()
    ensures { AreRefused }
{}

/// The 33 examples of `tests/sessions.rows` have the stored answers.
pub fn the_sessions_compute()
    ensures { AreSessions }
{}

/// The 24 examples of `tests/threads.rows` have the stored answers.
pub fn the_threads_compute()
    ensures { AreThreads }
{}

/// The 100 examples of `tests/wide.rows` have the stored answers.
pub fn the_wide_compute()
    ensures { AreWide }
{}
