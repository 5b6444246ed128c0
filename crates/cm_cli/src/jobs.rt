// The jobs of the calls with threads.
use cm_job::job::RunJob;
use cm_job::loop_job::LoopJob;
use cm_watch::job::WatchJob;

/// A job that is streamed with threads.
#[derive(Drop)]
pub enum ThreadJob {
    /// Its lines run beside each other, each with a client of its own.
    Run(RunJob),
    /// Its lines run beside each other, with one client for all.
    Watch(WatchJob),
    /// An input is filtered into an output.
    Loop(LoopJob),
}
