// What holds of the definitions of a run's text, and of lines that stream at the same time.
ghost use Rattle.cm_run.specs.Law.{LinesApart, PacedLaw};

/// A run without free lines has one text, whatever the schedule.
pub fn a_paced_run_has_one_text()
    ensures { PacedLaw }
{}

/// Lines that stream at the same time under one table of owners have different subdevices.
pub fn lines_exclude_each_other()
    ensures { LinesApart }
{}
