// The program: a dialogue over the process's own input and output.
#![tactic(auto)]

ghost use Rattle.std.specs.Prelude.{◌≤◌};
ghost use Rattle.std.specs.Process.{exit_status};

use cm_dialogue::standard::StdClient;
use cm_serve::serving::{Served, exit_status, serve};
use std::io;
use std::process::ExitCode;
use std::sync::Wait;

fn main(rt: HostRuntime) -> ExitCode {
    run(&rt, &rt)
}

fn run<R: Wait>(rt: &HostRuntime, waiting: &R) -> ExitCode
    ensures { exit_status result ≤ 5 }
{
    let served = match StdClient::new(rt.alloc(), rt.reader(), io::writer(rt)) {
        Ok(mut client) => serve(waiting, rt.alloc(), &mut client),
        Err(_) => Served::NoMemory,
    };
    ExitCode::from(exit_status(served))
}
