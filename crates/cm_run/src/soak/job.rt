// The job of a soak.
ghost use Rattle.std.specs.Prelude.{◌≡◌, ◌<◌, ◌≤◌, ◌++◌, ◌∷◌, [], false, length, codes, replicate, IfOk, OnOk};
ghost use Rattle.std.specs.List.{list_any};
ghost use Rattle.cm_signal.specs.Signals.{is_at};
ghost use Rattle.cm_run.specs.SoakJob as spec;

use cm_base::prover::shows;
use cm_base::source::{COUNT, NOW, TIMER};
use cm_base::transfer::NoMemory;
use cm_board::board::{BoardDesc, Kind, LeastScan, ListRules, Munge, Range, Rounding, Sub, Timers};
use cm_board::items::Item;
use cm_board::lines::{
    BITS, BITS_FORM, BUFFER, BUFFER_FORM, CONVERT, CONVERT_FORM, LINES, LINES_FORM, LIST,
    LIST_FORM, MUNGE, MUNGE_OFFSET, RANGE, RANGE_FORM, SCAN, SCAN_FORM, SCANS, SCANS_FORM, SOURCES,
    SOURCES_FORM, TICK, TICK_FORM,
};
use cm_board::table::Value;
use cm_cmd::command::{Cmd, Trig};
use cm_cmd::entry::pack;
use cm_job::job::RunJob;
use cm_job::line::{Access, Mode, RunLine};
use cm_signal::signal_line::SignalLine;
use cm_signal::signals::Signals;
use cm_signal::wave::{Wave, WaveAt};
use cm_test::test::{Accepted, accept};
use std::alloc::{AllocError, Global};

// One range of ten volts to both sides.
fn ranges(alloc: Global) -> Result<Vec<Range>, AllocError>
    ensures { IfOk result (λ ranges. ranges.items ≡ spec.soak_range ∷ []) }
{
    let mut ranges = Vec::new(alloc);
    ranges.push(Range {
        min: -10_000_000,
        max: 10_000_000,
        unit: 0,
    })?;
    Ok(ranges)
}

// Adds a line of a block.
fn put_line(
    block: &mut Vec<Item>,
    alloc: Global,
    row: usize,
    form: usize,
    values: &[Value],
) -> Result<(), AllocError>
    ensures { OnOk result (block.new.items ≡ block.old.items ++ record { row = row; form = form; values = values.now } ∷ []) }
{
    block.push(Item::new(alloc, row, form, values)?)?;
    Ok(())
}

// What the lines of its block say of codes.
fn put_codes(block: &mut Vec<Item>, alloc: Global) -> Result<(), AllocError>
    ensures { OnOk result (block.new.items ≡ block.old.items ++ spec.soak_codes) }
{
    let range = [
        Value::Signed(-10_000_000),
        Value::Signed(10_000_000),
        Value::Number(0),
    ];
    put_line(block, alloc, BITS, BITS_FORM, &[Value::Number(16)])?;
    put_line(block, alloc, MUNGE, MUNGE_OFFSET, &[])?;
    put_line(block, alloc, RANGE, RANGE_FORM, &range)
}

// What they say of the sources and the times of commands.
fn put_times(block: &mut Vec<Item>, alloc: Global) -> Result<(), AllocError>
    ensures { OnOk result (block.new.items ≡ block.old.items ++ spec.soak_times) }
{
    let sources = [
        Value::Number(NOW),
        Value::Number(TIMER),
        Value::Number(NOW),
        Value::Number(COUNT),
        Value::Number(COUNT),
    ];
    put_line(block, alloc, SOURCES, SOURCES_FORM, &sources)?;
    put_line(block, alloc, TICK, TICK_FORM, &[Value::Number(1)])?;
    put_line(
        block,
        alloc,
        SCAN,
        SCAN_FORM,
        &[Value::Number(1), Value::Number(1_000_000)],
    )?;
    put_line(
        block,
        alloc,
        CONVERT,
        CONVERT_FORM,
        &[Value::Number(1), Value::Number(1)],
    )
}

// What they say of how much a command may ask for.
fn put_sizes(block: &mut Vec<Item>, alloc: Global) -> Result<(), AllocError>
    ensures { OnOk result (block.new.items ≡ block.old.items ++ spec.soak_sizes) }
{
    put_line(block, alloc, LIST, LIST_FORM, &[Value::Number(1)])?;
    put_line(block, alloc, SCANS, SCANS_FORM, &[Value::Number(1_000_000)])?;
    put_line(block, alloc, LINES, LINES_FORM, &[Value::Number(0)])?;
    put_line(block, alloc, BUFFER, BUFFER_FORM, &[Value::Number(256)])
}

// The lines of its block.
fn soak_block(alloc: Global) -> Result<Vec<Item>, AllocError>
    ensures { IfOk result (λ block. block.items ≡ spec.soak_block) }
{
    let mut block = Vec::new(alloc);
    put_codes(&mut block, alloc)?;
    put_times(&mut block, alloc)?;
    put_sizes(&mut block, alloc)?;
    Ok(block)
}

// An analog input with one channel.
fn soak_sub(alloc: Global) -> Result<Sub, AllocError>
    ensures { IfOk result (λ sub. sub ≡ spec.soak_sub) }
{
    Ok(Sub {
        version: 1,
        kind: Kind::Ai,
        channels: 1,
        maxdata: 65_535,
        munge: Munge::Offset,
        ranges: ranges(alloc)?,
        sources: [NOW, TIMER, NOW, COUNT, COUNT],
        timers: Timers {
            tick: 1,
            clock: Vec::new(alloc),
        },
        scan_min: 1,
        scan_max: 1_000_000,
        conv_min: 1,
        conv_max: 1,
        list_max: 1,
        scans_max: 1_000_000,
        lines: 0,
        buffer: 256,
        rounding: Rounding {
            own: None,
            half_down: false,
        },
        least_scan: LeastScan {
            per_entry: 0,
            holds: false,
        },
        lists: ListRules {
            same_range: false,
            order: None,
            same_reference: false,
            same_polarity: false,
        },
        forbidden: Vec::new(alloc),
        chans: Vec::new(alloc),
        invert: false,
        fifo: None,
        block: soak_block(alloc)?,
    })
}

// Four such inputs.
fn soak_subs(alloc: Global) -> Result<Vec<Sub>, AllocError>
    ensures { IfOk result (λ subs. subs.items ≡ replicate 4 spec.soak_sub) }
{
    let mut subs = Vec::new(alloc);
    subs.push(soak_sub(alloc)?)?;
    subs.push(soak_sub(alloc)?)?;
    subs.push(soak_sub(alloc)?)?;
    subs.push(soak_sub(alloc)?)?;
    Ok(subs)
}

fn soak_board(alloc: Global) -> Result<BoardDesc, AllocError>
    ensures { IfOk result (λ board. board ≡ spec.soak_board) }
{
    let name = Vec::from_slice(alloc, b"soak")?;
    let subs = soak_subs(alloc)?;
    Ok(BoardDesc {
        version: 1,
        name,
        subs,
    })
}

// Adds the wave of a subdevice that has none.
fn put_wave(signals: &mut Signals, sub: u32) -> Result<(), AllocError>
    requires { list_any (is_at sub 0) signals.old.waves ≡ false }
    ensures { OnOk result (signals.new ≡ record signals.old { waves = signals.old.waves ++ spec.soak_wave sub ∷ [] }) }
{
    // This read shows the rule of all signals: there is room for their recorded levels.
    shows(&signals.horizon);
    signals.put(SignalLine::Wave(WaveAt {
        sub,
        chan: 0,
        wave: Wave::Saw(-10_000_000, 10_000_000, 4_096_000),
    }))
}

fn soak_signals(alloc: Global) -> Result<Signals, AllocError>
    ensures { IfOk result (λ signals. signals ≡ spec.soak_signals) }
{
    let mut signals = Signals::silent(alloc, 1_000_000_000)?;
    put_wave(&mut signals, 0)?;
    put_wave(&mut signals, 1)?;
    put_wave(&mut signals, 2)?;
    put_wave(&mut signals, 3)?;
    Ok(signals)
}

fn soak_cmd(alloc: Global, sub: u32, count: u32) -> Result<Cmd, AllocError>
    ensures { IfOk result (λ cmd. cmd ≡ spec.soak_cmd sub count) }
{
    let mut list = Vec::new(alloc);
    list.push(pack(0, 0, 0))?;
    Ok(Cmd {
        sub,
        flags: 0,
        start: Trig { src: NOW, arg: 0 },
        scan_begin: Trig {
            src: TIMER,
            arg: 1000,
        },
        convert: Trig { src: NOW, arg: 0 },
        scan_end: Trig { src: COUNT, arg: 1 },
        stop: Trig {
            src: COUNT,
            arg: count,
        },
        list,
    })
}

// The command as its subdevice accepts it.
fn accepted(sub: &Sub, cmd: Cmd, index: u32, count: u32) -> Accepted
    requires sub { sub.now ≡ spec.soak_sub }
    requires cmd { cmd ≡ spec.soak_cmd index count }
    requires count { (1 ≤ count) × (count ≤ 1000000) }
    ensures { result ≡ spec.soak_cmd index count }
{
    // They are here for the contract alone: the command is made of them.
    shows(&index);
    shows(&count);
    match accept(sub, cmd) {
        Ok(accepted) => accepted,
        Err(_) => unreachable!(),
    }
}

fn access_of(index: u32) -> Access
    ensures { result ≡ spec.access_of index }
{
    if index % 2 == 0 {
        Access::Copy
    } else {
        Access::Map
    }
}

// The line of a subdevice.
fn soak_line(alloc: Global, sub: &Sub, index: u32, count: u32) -> Result<RunLine, AllocError>
    requires sub { sub.now ≡ spec.soak_sub }
    requires count { (1 ≤ count) × (count ≤ 1000000) }
    ensures { IfOk result (λ line. line ≡ spec.soak_line index count) }
{
    let cmd = soak_cmd(alloc, index, count)?;
    Ok(RunLine::Go {
        mode: Mode::Paced,
        access: access_of(index),
        t0: 0,
        take: None,
        cmd: accepted(sub, cmd, index, count),
    })
}

// How many of the conversions a subdevice has.
fn share(n: u32, index: u32) -> u32
    requires { n ≤ 4000000 }
    ensures value { result ≡ spec.share n index }
    ensures few { result ≤ 1000000 }
{
    n / 4 + if index < n % 4 { 1 } else { 0 }
}

// Adds the line of a subdevice, where it has conversions.
fn add_line(
    alloc: Global,
    lines: &mut Vec<RunLine>,
    sub: &Sub,
    index: u32,
    count: u32,
) -> Result<(), AllocError>
    requires sub { sub.now ≡ spec.soak_sub }
    requires count { count ≤ 1000000 }
    ensures { OnOk result (lines.new.items ≡ lines.old.items ++ spec.line_for index count) }
{
    if count == 0 {
        return Ok(());
    }
    lines.push(soak_line(alloc, sub, index, count)?)?;
    Ok(())
}

// The lines of all subdevices.
fn soak_lines(alloc: Global, sub: &Sub, n: u32) -> Result<Vec<RunLine>, AllocError>
    requires sub { sub.now ≡ spec.soak_sub }
    requires few { n ≤ 4000000 }
    ensures { IfOk result (λ lines. lines.items ≡ spec.soak_lines n) }
{
    let mut lines = Vec::new(alloc);
    add_line(alloc, &mut lines, sub, 0, share(n, 0))?;
    add_line(alloc, &mut lines, sub, 1, share(n, 1))?;
    add_line(alloc, &mut lines, sub, 2, share(n, 2))?;
    add_line(alloc, &mut lines, sub, 3, share(n, 3))?;
    Ok(lines)
}

/// A job of `n` conversions, 1 to 4,000,000: a board of four inputs, each with a saw at its channel, a
/// paced command for each, with a quarter of the conversions, and one client that reads them.
pub fn soak_job(alloc: Global, n: u32) -> Result<RunJob, NoMemory>
    requires { (1 ≤ n) × (n ≤ 4000000) }
    ensures { IfOk result (λ job. job ≡ spec.soak_job n) }
{
    let board = soak_board(alloc)?;
    let signals = soak_signals(alloc)?;
    let sub = soak_sub(alloc)?;
    let lines = soak_lines(alloc, &sub, n)?;
    Ok(RunJob {
        board,
        signals,
        lines,
    })
}
