// The signals of several lines, one line after another.
ghost use Rattle.std.specs.Prelude.{◌≡◌, ℕ, ◌<◌, ◌≤◌, ◌^◌, ◌++◌, [], length, nat_le, replicate, slice_index, slice_index_or, slice_set, is_ok, if◌then◌else◌, IfOk};
ghost use Rattle.std.specs.List.{list_all};
ghost use Rattle.std.specs.List.Sorted.{IsStrictlyIncreasing};
ghost use Rattle.cm_signal.specs.Signals.{edge_count, recorded_count};
ghost use Rattle.cm_signal.specs.Adding as part;

use crate::signal_line::SignalLine;
use crate::signals::{IntAt, Signals, Slope};
use crate::wave::{Wave, WaveAt};
use cm_base::faults::Fault;
use cm_base::lists::Times;
use cm_base::prover::shows;
use std::alloc::{AllocError, Global};

impl Signals {
    ghost use Rattle.std.specs.Prelude.{◌≡◌, ◌≤◌, ◌<◌, ◌+◌, ◌^◌, ◌++◌, ◌∷◌, true, false, Ok, IfOk, OnOk, length, slice_set};
    ghost use Rattle.std.specs.List.{list_any};
    ghost use Rattle.cm_base.specs.Reading.{seen};
    ghost use Rattle.cm_signal.specs.Said.{IsSaid};
    ghost use Rattle.cm_signal.specs.Signals.{SignalsText, edge_count, is_at, times_at};
    ghost use Rattle.cm_signal.specs.Adding.{checked, has_record_room, has_room, rises_from, silent, with_said, with_times};
    ghost use Rattle.cm_signal.specs.Wave.{HasPeriod, is_fine};

    /// No wave, no edge and no trigger up to a horizon.
    pub fn silent(alloc: Global, horizon: u64) -> Result<Signals, AllocError>
        requires { horizon ≤ 10 ^ 15 }
        ensures { IfOk result (λ s. s ≡ silent horizon) }
    {
        Ok(Signals {
            horizon,
            waves: Vec::new(alloc),
            edges: no_edges(alloc)?,
            falls: no_edges(alloc)?,
            ints: Vec::new(alloc),
        })
    }

    /// Whether a line may stand after those so far.
    pub fn check(&self, said: &SignalLine) -> Result<(), Fault>
        requires { IsSaid self.now.horizon said.now }
        ensures { seen (λ u. tt) result ≡ checked self.now said.now }
    {
        match said {
            SignalLine::Wave(wave) => self.check_wave(wave),
            SignalLine::Edges(slope, line, times) => self.check_edges(
                *slope,
                *line,
                times.as_slice(),
            ),
            SignalLine::Int(_) => self.check_int(),
        }
    }

    fn check_wave(&self, wave: &WaveAt) -> Result<(), Fault>
        ensures { seen (λ u. tt) result ≡ part.checked_wave self.now wave.now }
    {
        if !self.has_record_room(&wave.wave) {
            Err(Fault::Limit)
        } else if self.has_wave(wave.sub, wave.chan) {
            Err(Fault::Double)
        } else if wave.wave.is_fine() {
            Ok(())
        } else {
            Err(Fault::Bad)
        }
    }

    // Whether its recorded levels and all recorded ones so far aren't too many together.
    fn has_record_room(&self, wave: &Wave) -> bool
        ensures { result ≡ has_record_room self.now wave.now }
    {
        recorded_count(&self.waves) + wave.recorded() <= 100_000
    }

    // Whether a channel has its wave.
    fn has_wave(&self, sub: u32, chan: u32) -> bool
        ensures { result ≡ list_any (is_at sub chan) self.now.waves }
    {
        self.waves
            .iter()
            .any(|wave| wave.sub == sub && wave.chan == chan)
    }

    fn check_edges(&self, slope: Slope, line: u32, times: &[u64]) -> Result<(), Fault>
        requires { line < 64 }
        ensures { seen (λ u. tt) result ≡ part.checked_edges self.now slope line times.now }
    {
        // This read shows what holds of the signals so far: each line has its list of edges.
        shows(&self.horizon);
        if !self.has_room(times) {
            Err(Fault::Limit)
        } else if rises_after(self.line(slope, line), times) {
            Ok(())
        } else {
            Err(Fault::Bad)
        }
    }

    // Whether these edges are within the horizon, and not too many with all others.
    fn has_room(&self, times: &[u64]) -> bool
        ensures { result ≡ has_room self.now times.now }
    {
        are_up_to(times, self.horizon) && self.edge_count() + times.len() <= 100_000
    }

    // How many rises and falls all lines have.
    fn edge_count(&self) -> usize
        ensures count { result ≡ edge_count self.now.edges + edge_count self.now.falls }
        ensures few { result ≤ 100000 }
    {
        count_of(&self.edges) + count_of(&self.falls)
    }

    fn check_int(&self) -> Result<(), Fault>
        ensures { seen (λ u. tt) result ≡ part.checked_int self.now }
    {
        if self.ints.len() < 1000 {
            Ok(())
        } else {
            Err(Fault::Limit)
        }
    }

    /// Adds what a line says.
    pub fn put(&mut self, said: SignalLine) -> Result<(), AllocError>
        requires said { IsSaid self.old.horizon said }
        requires fits { checked self.old said ≡ Ok tt }
        ensures { OnOk result (self.new ≡ with_said self.old said) }
    {
        match said {
            SignalLine::Wave(wave) => self.put_wave(wave),
            SignalLine::Edges(slope, line, times) => self.put_edges(slope, line, &times),
            SignalLine::Int(int) => self.put_int(int),
        }
    }

    fn put_wave(&mut self, wave: WaveAt) -> Result<(), AllocError>
        requires period { HasPeriod wave.wave }
        requires room { has_record_room self.old wave.wave ≡ true }
        requires own { list_any (is_at wave.sub wave.chan) self.old.waves ≡ false }
        requires fine { is_fine wave.wave ≡ true }
        ensures { OnOk result (self.new ≡ record self.old { waves = self.old.waves ++ wave ∷ [] }) }
    {
        self.waves.push(wave)?;
        Ok(())
    }

    fn put_edges(&mut self, slope: Slope, line: u32, times: &Times) -> Result<(), AllocError>
        requires line { line < 64 }
        requires room { has_room self.old times.now ≡ true }
        requires rise { rises_from 0 (times_at self.old slope line ++ times.now) ≡ true }
        ensures { OnOk result (self.new ≡ with_times self.old slope line (times_at self.old slope line ++ times.now)) }
    {
        match slope {
            Slope::Rise => extend_line(&mut self.edges, line, times.as_slice()),
            Slope::Fall => extend_line(&mut self.falls, line, times.as_slice()),
        }
    }

    fn put_int(&mut self, int: IntAt) -> Result<(), AllocError>
        requires time { int.time ≤ self.old.horizon }
        requires few { length self.old.ints < 1000 }
        ensures { OnOk result (self.new ≡ record self.old { ints = self.old.ints ++ int ∷ [] }) }
    {
        self.ints.push(int)?;
        Ok(())
    }
}

// No edge on any of the 64 lines.
fn no_edges(alloc: Global) -> Result<Vec<Times>, AllocError>
    ensures { IfOk result (λ lines. lines.items ≡ replicate 64 []) }
{
    let mut lines = Vec::new(alloc);
    while lines.len() < 64 {
        lines.push(Times::new(Vec::new(alloc)))?;
    }
    Ok(lines)
}

// Adds times to the list of a line. Where memory runs out nothing changes.
fn extend_line(lines: &mut [Times], line: u32, times: &[u64]) -> Result<(), AllocError>
    requires { line < length lines.old }
    ensures { lines.new ≡ slice_set lines.old line (if is_ok result then slice_index_or lines.old line [] ++ times.now else slice_index_or lines.old line []) }
{
    let list = &mut lines[line as usize];
    list.extend(times)
}

// How many edges these lists have together.
fn count_of(lines: &[Times]) -> usize
    requires few { edge_count lines.now ≤ 10 ^ 5 }
    ensures { result ≡ edge_count lines.now }
{
    let mut count = 0;
    for times in lines {
        count += times.as_slice().len();
    }
    count
}

// How many recorded levels these waves have together.
fn recorded_count(waves: &[WaveAt]) -> usize
    requires few { recorded_count waves.now ≤ 10 ^ 5 }
    ensures { result ≡ recorded_count waves.now }
{
    let mut count = 0;
    for wave in waves {
        count += wave.wave.recorded();
    }
    count
}

// Whether no time is above a limit.
fn are_up_to(times: &[u64], most: u64) -> bool
    ensures { result ≡ list_all (λ time. nat_le time most) times.now }
{
    times.iter().all(|time| *time <= most)
}

// Whether times rise strictly after others that do.
fn rises_after(before: &[u64], times: &[u64]) -> bool
    requires rise { IsStrictlyIncreasing before.now }
    requires low { (k : ℕ) → k < length before.now → slice_index before.now k ≤ 10 ^ 15 }
    requires within { (k : ℕ) → k < length times.now → slice_index times.now k ≤ 10 ^ 15 }
    ensures { result ≡ part.rises_from 0 (before.now ++ times.now) }
{
    match before.last() {
        None => rises_from(0, times),
        Some(last) => rises_from(*last + 1, times),
    }
}

// Whether times rise strictly, none below `least`.
fn rises_from(least: u64, times: &[u64]) -> bool
    requires { (k : ℕ) → k < length times.now → slice_index times.now k ≤ 10 ^ 15 }
    ensures { result ≡ part.rises_from least times.now }
{
    let mut least = least;
    for time in times {
        if *time < least {
            return false;
        }
        least = *time + 1;
    }
    true
}
