// What the workers of watched lines wait for.
ghost use Rattle.std.specs.Prelude.{◌≡◌, ◌<◌, false, length, map, slice_get, IfOk, IfSome};
ghost use Rattle.cm_watch.specs.Watched.{AreStopped};
ghost use Rattle.cm_watch.specs.Woken.{alarm_of, woken_after};

use cm_base::prover::shows;
use cm_base::transfer::NoMemory;
use cm_client::waiting::{Alarm, Relay, Sleeper};
use cm_sample::planned::Planned;
use cm_stream::merge::Merge;
use crossbeam_utils::sync::EventCount;
use std::alloc::Global;

// A ring of fewer cells wakes a worker for each sample.
const SMALL: u32 = 128;

/// What a line's workers wait for: its munger for samples, and its board for cells that are free again.
#[derive(Drop)]
pub struct LineEvents {
    written: EventCount,
    released: EventCount,
    // After how many samples a worker is woken.
    every: u32,
}

impl LineEvents {
    /// Of a line whose ring has so many cells. A worker is woken once for half of them.
    pub fn new(size: u32) -> LineEvents
        ensures { result.every ≡ woken_after size }
    {
        LineEvents {
            written: EventCount::new(),
            released: EventCount::new(),
            every: if size < SMALL { 1 } else { size / 2 },
        }
    }
}

/// What all workers of a watch wait for: those of each line, and the client for samples of any line.
#[derive(Drop)]
pub struct WatchEvents {
    pub lines: Vec<LineEvents>,
    munged: EventCount,
}

impl WatchEvents {
    /// Of these lines.
    pub fn new(lines: Vec<LineEvents>) -> WatchEvents
        ensures { result.lines.items ≡ lines.items }
    {
        WatchEvents {
            lines,
            munged: EventCount::new(),
        }
    }

    /// How the board of a line waits.
    pub fn board(&self, line: usize) -> Relay<'_>
        requires { line < length self.now.lines.items }
        ensures sleeper { result.sleeper ≡ false }
        ensures alarm { IfSome (slice_get self.now.lines.items line) (λ events. result.alarm ≡ alarm_of events) }
    {
        let events = &self.lines[line];
        Relay::new(&events.released, &events.written, events.every)
    }

    /// How the munger of a line waits.
    pub fn munger(&self, line: usize) -> Relay<'_>
        requires { line < length self.now.lines.items }
        ensures sleeper { result.sleeper ≡ false }
        ensures alarm { IfSome (slice_get self.now.lines.items line) (λ events. result.alarm ≡ alarm_of events) }
    {
        let events = &self.lines[line];
        Relay::new(&events.written, &self.munged, events.every)
    }

    /// How the client waits.
    pub fn client(&self) -> Sleeper<'_>
        ensures { result ≡ false }
    {
        Sleeper::new(&self.munged)
    }

    /// What wakes the board of each line.
    pub fn boards(&self, alloc: Global) -> Result<Vec<Alarm<'_>>, NoMemory>
        ensures { IfOk result (λ boards. boards.items ≡ map alarm_of self.now.lines.items) }
    {
        let mut boards = Vec::new(alloc);
        for events in self.lines.iter() {
            boards.push(Alarm::new(&events.released, events.every))?;
        }
        Ok(boards)
    }

    /// Wakes the boards of all lines, each of whose rings was asked for the stop, which they then see.
    pub fn wake_boards<P: Planned>(&self, merge: &Merge<P>)
        requires { AreStopped merge.now.streams }
    {
        shows(merge);
        for events in self.lines.iter() {
            events.released.notify_all();
        }
    }
}
