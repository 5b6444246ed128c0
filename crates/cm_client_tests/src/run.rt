// The block of a line whose words its client keeps.
use cm_base::cursor::split_lines;
use cm_base::faults::ReadStop;
use cm_base::gate::OpenGate;
use cm_base::transfer::NoMemory;
use cm_block::whole::block_text;
use cm_board_text::reading::read_board;
use cm_client::client::Reads;
use cm_client::streaming::stream_command;
use cm_expand::call::plan_of;
use cm_job::job::RunJob;
use cm_job::line::{Access, Mode, RunLine};
use cm_job::reading::read_run;
use cm_signal_text::reading::read_signals;
use std::alloc::Global;
use std::sync::Wait;
use std::test::Fail;
use std::thread::Threads;

const JOB: &str = "comedi 1
board ramp
subdevice ai 2
bits 16
range -10000000 10000000 0
sources now timer now count count
tick 1
scan 1 1000000
convert 1 1
list 4
scans 10
lines 0
buffer 4
signals 10000
wave 0 0 table 1000 0 1000000 2000000
session
go paced copy 0 all 0 0 now:0 timer:1000 now:0 count:2 count:3 0/0/ground,1/0/ground
";

fn read_job(alloc: Global, text: &str) -> Result<RunJob, ReadStop> {
    let bytes = text.as_bytes();
    if bytes.len() > 4096 {
        return Err(ReadStop::NoMemory);
    }
    let lines = split_lines(alloc, bytes)?;
    let (board, at) = read_board(alloc, &lines)?;
    let (signals, at) = read_signals(alloc, &board, &lines, at)?;
    let lines = read_run(alloc, &board, &signals, &lines, at)?;
    Ok(RunJob {
        board,
        signals,
        lines,
    })
}

// The block of a job's first line, where that is paced and takes all samples of an input.
fn block_by_words<R: Threads + Wait + Sync>(
    rt: &R,
    alloc: Global,
    job: &RunJob,
) -> Result<Option<Vec<u8>>, NoMemory> {
    if job.lines.len() == 0 {
        return Ok(None);
    }
    let line = &job.lines[0];
    let plan = plan_of(&job.board, &job.signals, line);
    let RunLine::Go {
        mode,
        access,
        take,
        cmd,
        ..
    } = line
    else {
        return Ok(None);
    };
    let (Mode::Paced, None) = (*mode, *take) else {
        return Ok(None);
    };
    let reads = Reads {
        by_map: *access == Access::Map,
        take: *take,
    };
    let words = Vec::new(alloc);
    let streamed = stream_command(
        rt,
        alloc,
        plan,
        cmd,
        words,
        mode.is_paced(),
        reads,
        &OpenGate,
        0,
    )?;
    let block = block_text(alloc, job, 0, &streamed.samples, &streamed.end)?;
    Ok(Some(block))
}

#[test]
fn the_words_of_a_line_have_its_block(rt: HostRuntime) -> Result<(), Fail> {
    let job = read_job(rt.alloc(), JOB)?;
    let block = block_by_words(&rt, rt.alloc(), &job)?;
    let text = b"0 -153\n1 -153\n0 999923\n1 -153\n0 2000000\n1 -153\ndone\n";
    assert!(&rt; block.is_some_and(|block| block.as_slice() == text.as_slice()));
    Ok(())
}
