// The top call as the one export of a static library, for a page that holds the job and the answer in memory.
#![tactic(auto)]

ghost use Rattle.std.specs.Prelude.{◌≡◌, ◌≢◌, ◌≤◌, [], drop, take, length, ℕ, List, None, Some, IfOk, IsSome, MatchOption};
ghost use Rattle.cm_base.specs.Memory.{sink_text};
ghost use Rattle.cm_cli.specs.Answer.{Concludes, outcome_of};
ghost use Rattle.cm_cli.specs.Commands.{named, plain, task_of};
ghost use Rattle.cm_page.specs.Page.{AnswersIn, Answered, command_at};

mod job;

use crate::job::Job;
use cm_base::memory::MemSink;
use cm_base::transfer::NoMemory;
use cm_cli::answer::answer;
use cm_cli::status::{Status, exit_status};
use std::alloc::Global;

/// Does the command with this number with a job, puts the answer at the start of `out`, and gives the program's exit
/// status. `count` becomes the number of the answer's bytes. Status 4 comes only when they fill `out`, and status 5
/// only when a command is named.
#[unsafe(no_mangle)]
pub extern "C" fn answer_of(
    alloc: Global,
    command: u32,
    job: &[u8],
    out: &mut [u8],
    count: &mut u64,
) -> u32
    ensures within { count.new ≤ length out.new }
    ensures outcome { Answered (command_at command) job.now (length out.new) result (take count.new out.new) }
    ensures rest { drop count.new out.new ≡ drop count.new out.old }
{
    let (status, len) = put_answer(alloc, command, job, out);
    *count = len as u64;
    exit_status(status) as u32
}

// Puts the answer into `out`, and gives the status and the number of bytes.
fn put_answer(alloc: Global, command: u32, job: &[u8], out: &mut [u8]) -> (Status, usize)
    ensures within { result.1 ≤ length out.new }
    ensures outcome { AnswersIn (command_at command) job.now (length out.new) result.0 (take result.1 out.new) }
    ensures rest { drop result.1 out.new ≡ drop result.1 out.old }
{
    match word_at(command) {
        None => put_usage(out),
        Some(_) => put_result(alloc, command, job, out),
    }
}

// Puts what the program answers when no command is named. It takes no memory.
fn put_usage(out: &mut [u8]) -> (Status, usize)
    ensures within { result.1 ≤ length out.new }
    ensures outcome { (job : List ℕ) → AnswersIn None job (length out.new) result.0 (take result.1 out.new) }
    ensures rest { drop result.1 out.new ≡ drop result.1 out.old }
{
    let text = b"usage\n";
    let count = text.len().min(out.len());
    out[..count].copy_from_slice(&text[..count]);
    let status = if count < text.len() {
        Status::WriteFault
    } else {
        Status::Usage
    };
    (status, count)
}

// Puts the answer of a command. A sink takes no more than it has room for, and fails only once that is full: no clause
// of `answer` says so.
#[tactic(auto, using(cm_cli::proofs::Ends::breaks_off))]
fn put_result(alloc: Global, command: u32, job: &[u8], out: &mut [u8]) -> (Status, usize)
    requires { IsSome (command_at command) }
    ensures within { result.1 ≤ length out.new }
    ensures outcome { AnswersIn (command_at command) job.now (length out.new) result.0 (take result.1 out.new) }
    ensures rest { drop result.1 out.new ≡ drop result.1 out.old }
{
    match answered(alloc, command, job, out.len()) {
        Ok((status, sink)) => {
            let text = sink.text();
            let room = out.len();
            if text.len() == room || (text.len() < room && status != Status::WriteFault) {
                out[..text.len()].copy_from_slice(text);
                (status, text.len())
            } else {
                (Status::NoMemory, 0)
            }
        }
        Err(NoMemory) => (Status::NoMemory, 0),
    }
}

// The status, and the answer in a sink with room for so many bytes.
fn answered(
    alloc: Global,
    command: u32,
    job: &[u8],
    room: usize,
) -> Result<(Status, MemSink), NoMemory>
    ensures outcome { IfOk result (λ r. Concludes r.0 (outcome_of (command_at command) job.now) (Some []) (Some (sink_text r.1))) }
    ensures read_fault { IfOk result (λ r. r.0 ≢ Status.ReadFault) }
{
    let words = words_of(alloc, command)?;
    let mut source = Job::new(job);
    let room = room.min(u32::MAX as usize) as u32;
    let mut sink = MemSink::new(alloc, room, u32::MAX, Vec::new(alloc))?;
    let status = answer(alloc, &words, &mut source, &mut sink);
    Ok((status, sink))
}

// The words that name the command with a number.
fn words_of(alloc: Global, command: u32) -> Result<Vec<String>, NoMemory>
    ensures { IfOk result (λ words. task_of words.items ≡ command_at command) }
{
    let mut words = Vec::new(alloc);
    if let Some(word) = word_at(command) {
        words.push(word.to_string(alloc)?)?;
    }
    Ok(words)
}

// The word of the command with a number.
fn word_at(command: u32) -> Option<&'static str>
    ensures { MatchOption result
        (command_at command ≡ None)
        (λ word. IsSome (command_at command) × (plain (named word.now []) ≡ command_at command)) }
{
    match command {
        0 => Some("test"),
        1 => Some("expand"),
        2 => Some("insn"),
        3 => Some("replay"),
        _ => None,
    }
}
