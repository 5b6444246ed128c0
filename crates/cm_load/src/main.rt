// Samples through shared rings under load: three threads a ring, and a reader that compares each
// sample with what it must be.
#![tactic(auto)]

ghost use Rattle.cm_load.specs.Asking.{Asks, IsNumber, number_of};
ghost use Rattle.std.specs.Option.{SomeIff};

mod cases;
mod moving;
mod reading;
mod words;

use cases::{Load, run_round, samples_of_round};
use std::process::ExitCode;
use std::{env, io};

// The statuses of a run whose words are wrong, and of one whose samples didn't come in order. A run
// whose output or memory fails ends with 1.
const USAGE: u8 = 2;

const LOST: u8 = 3;

// The number that a word writes, if it is one.
fn number_of(word: &str) -> Option<u32>
    ensures { SomeIff result (IsNumber word.now) (number_of word.now) }
{
    word.parse().ok()
}

// What is asked by the words after the program's name, or the words are wrong.
fn asked_by(words: &[String]) -> Option<Load>
    ensures { Asks words.now result }
{
    match words {
        [] => Some(Load {
            samples: 100_000,
            rounds: 1,
            times: false,
        }),
        [samples] => Some(Load {
            samples: number_of(samples.as_str())?,
            rounds: 1,
            times: false,
        }),
        [samples, rounds] => Some(Load {
            samples: number_of(samples.as_str())?,
            rounds: number_of(rounds.as_str())?,
            times: false,
        }),
        [samples, rounds, times] if times.as_str() == "times" => Some(Load {
            samples: number_of(samples.as_str())?,
            rounds: number_of(rounds.as_str())?,
            times: true,
        }),
        _ => None,
    }
}

fn main(rt: HostRuntime) -> io::Result<ExitCode> {
    let words: Vec<String> = env::args(&rt)?.skip(1).collect(rt.alloc())?;
    let Some(asked) = asked_by(&words) else {
        println!(rt; "usage: cm_load [SAMPLES [ROUNDS [times]]]")?;
        return Ok(ExitCode::from(USAGE));
    };
    let mut whole = true;
    for _ in 0..asked.rounds {
        let came = run_round(&rt, rt.alloc(), asked)?;
        whole &= came.is_whole(samples_of_round(asked.samples));
    }
    Ok(ExitCode::from(if whole { 0 } else { LOST }))
}
