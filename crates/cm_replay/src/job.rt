// A job of a replay.

use cm_board::board::BoardDesc;
use cm_session::op::SessionLine;
use cm_signal::signals::Signals;
use std::marker::Model;

/// A board, its signals, and the lines of a session over them: no line is before an earlier one or
/// after the horizon, and each is within the limits of its form.
#[derive(Drop)]
pub struct Job {
    pub board: BoardDesc,
    pub signals: Signals,
    pub lines: Vec<SessionLine>,
}

impl Model for Job {
    ghost use Rattle.cm_replay.specs.Job.{JobText, IsJob};

    ghost Value = { JobText };

    ghost use Rattle.cm_replay.specs.JobView.{job_text};

    ghost view = { job_text };

    ghost invariant = { λ j. IsJob (job_text j) };
}
