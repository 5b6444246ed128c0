// What holds of the lines of every job.
ghost use Rattle.cm_job.specs.Law.{FirstLineIsRefused};

/// The lines of a run, of a watch, of an expansion, of tests and of a loop are refused at the first that
/// fails, whatever stands after it. A loop has one line: a further one fails, and without any the job is
/// refused at its end.
pub fn the_first_failing_line_is_refused()
    ensures { FirstLineIsRefused }
{}
