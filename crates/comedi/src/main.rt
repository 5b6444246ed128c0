// The program: the top call over the process's own words, input and output.
#![tactic(auto)]

ghost use Rattle.std.specs.Prelude.{◌≤◌};
ghost use Rattle.std.specs.Process.{exit_status};

use cm_base::gate::OpenGate;
use cm_base::standard::{StdSink, StdSource};
use cm_cli::asked::comedi_as_asked;
use cm_cli::status::exit_status;
use std::process::ExitCode;
use std::sync::Wait;
use std::thread::Threads;
use std::{env, io};

fn main(rt: HostRuntime) -> ExitCode {
    run(&rt, &rt)
}

fn run<R: Threads + Wait + Sync>(rt: &HostRuntime, threads: &R) -> ExitCode
    ensures { exit_status result ≤ 5 }
{
    let mut source = StdSource::new(rt.reader());
    let mut sink = StdSink::new(io::writer(rt));
    let status = comedi_as_asked(
        threads,
        rt.alloc(),
        env::args(rt),
        &mut source,
        &mut sink,
        &OpenGate,
    );
    ExitCode::from(exit_status(status))
}
