// A run job.

use crate::line::RunLine;
use cm_board::board::BoardDesc;
use cm_signal::signals::Signals;
use std::marker::Model;

/// A board, its signals, and the lines of a run over them: each command passes the test of its
/// subdevice, and each line is within the limits of its form.
#[derive(Drop)]
pub struct RunJob {
    pub board: BoardDesc,
    pub signals: Signals,
    pub lines: Vec<RunLine>,
}

impl Model for RunJob {
    ghost use Rattle.cm_job.specs.Job.{RunJobText, IsRunJob};

    ghost Value = { RunJobText };

    ghost use Rattle.cm_job.specs.JobView.{job_text};

    ghost view = { job_text };

    ghost invariant = { λ j. IsRunJob (job_text j) };
}
