// The program: the top call over the process's own words, input and output.
#![tactic(auto)]

ghost use Rattle.std.specs.Prelude.{◌≤◌};
ghost use Rattle.std.specs.Process.{exit_status};

use cm_base::standard::{StdSink, StdSource};
use cm_cli::status::exit_status;
use cm_facts::asked::facts_as_asked;
use std::process::ExitCode;
use std::{env, io};

fn main(rt: HostRuntime) -> ExitCode {
    run(&rt)
}

fn run(rt: &HostRuntime) -> ExitCode
    ensures { exit_status result ≤ 5 }
{
    let mut source = StdSource::new(rt.reader());
    let mut sink = StdSink::new(io::writer(rt));
    let status = facts_as_asked(rt.alloc(), env::args(rt), &mut source, &mut sink);
    ExitCode::from(exit_status(status))
}
