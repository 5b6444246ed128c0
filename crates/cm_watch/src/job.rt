// A watch job.
ghost use Rattle.std.specs.Prelude.{◌≡◌};
ghost use Rattle.cm_job.specs.WatchLines.{AreWatchLines};
ghost use Rattle.cm_signal.specs.Fitting.{FitBoard};

use cm_board::board::BoardDesc;
use cm_job::job::RunJob;
use cm_job::line::RunLine;
use cm_signal::signals::Signals;
use std::marker::Model;

/// A run job whose lines can be watched: each is paced and takes all samples of an input, and its
/// subdevice's buffer holds a scan.
#[derive(Drop)]
pub struct WatchJob {
    job: RunJob,
}

impl Model for WatchJob {
    ghost use Rattle.cm_job.specs.Job.{RunJobText};
    ghost use Rattle.cm_watch.specs.Watching.{IsWatchJob};

    ghost Value = { RunJobText };

    ghost view = { λ w. w.job };

    ghost invariant = { λ w. IsWatchJob w.job };
}

impl WatchJob {
    ghost use Rattle.cm_watch.specs.Watching.{IsWatchJob};

    /// The job of watched lines over a board and signals.
    pub fn new(board: BoardDesc, signals: Signals, lines: Vec<RunLine>) -> WatchJob
        requires fits { FitBoard board.subs signals }
        requires lines { AreWatchLines board signals lines.items }
        ensures { result ≡ record { board = board; signals = signals; lines = lines.items } }
    {
        WatchJob {
            job: RunJob {
                board,
                signals,
                lines,
            },
        }
    }

    /// The same as the job of a run.
    pub(crate) fn job(&self) -> &RunJob
        ensures job { result.now ≡ self.now }
        ensures watched { IsWatchJob self.now }
    {
        &self.job
    }
}
