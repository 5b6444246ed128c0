// A loop job.
ghost use Rattle.std.specs.Prelude.{◌≡◌};
ghost use Rattle.cm_expand.specs.PlanView.{plan_text};

use cm_board::board::BoardDesc;
use cm_expand::call::plan_at;
use cm_expand::plan::Plan;
use cm_signal::signals::Signals;
use cm_test::test::Accepted;
use std::marker::Model;

/// A board, its signals, and a loop over them: samples of an input command, and an output command
/// that puts out the means of up to `window` of them. Each command passes the test of its subdevice
/// and has up to a million conversions, with munged words. The lists have the same length, and each
/// output comes later than the sample of its place.
#[derive(Drop)]
pub struct LoopJob {
    pub board: BoardDesc,
    pub signals: Signals,
    /// When the input's command is called, in nanoseconds.
    pub t_in: u64,
    /// When the output's command is called, in nanoseconds.
    pub t_out: u64,
    /// How many samples of a list entry stand in a mean, 1 to 16.
    pub window: u32,
    pub input: Accepted,
    pub output: Accepted,
}

impl Model for LoopJob {
    ghost use Rattle.cm_job.specs.LoopJob.{LoopJobText, IsLoopJob};

    ghost Value = { LoopJobText };

    ghost use Rattle.cm_job.specs.LoopJobView.{job_text};

    ghost view = { job_text };

    ghost invariant = { λ j. IsLoopJob (job_text j) };
}

impl LoopJob {
    ghost use Rattle.cm_job.specs.LoopJob.{IsLoopJob, input_of, output_of};

    /// The plan of the input's command.
    pub fn input_plan(&self) -> Plan<'_>
        ensures plan { plan_text result ≡ input_of self.now }
        ensures job { IsLoopJob self.now }
    {
        plan_at(&self.board, &self.signals, self.t_in, &self.input)
    }

    /// The plan of the output's command.
    pub fn output_plan(&self) -> Plan<'_>
        ensures plan { plan_text result ≡ output_of self.now }
        ensures job { IsLoopJob self.now }
    {
        plan_at(&self.board, &self.signals, self.t_out, &self.output)
    }
}
