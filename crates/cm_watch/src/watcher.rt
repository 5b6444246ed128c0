// How the client of watched lines waits.
ghost use Rattle.std.specs.Prelude.{◌≡◌, ◌<◌, ◌≤◌, false, length, map, not, slice_set, IfOk};
ghost use Rattle.cm_stream.specs.Merging.{first_after, released_of, HasMerged};
ghost use Rattle.cm_watch.specs.Told.{is_over, is_waiting, rung, untold, HasRung};
ghost use Rattle.cm_watch.specs.Woken.{alarm_of};

use crate::events::WatchEvents;
use cm_base::prover::shows;
use cm_base::transfer::NoMemory;
use cm_client::waiting::{Alarm, Sleeper};
use cm_sample::planned::Planned;
use cm_stream::merge::{Merge, MergeStep};
use std::alloc::Global;
use std::marker::Model;
use std::sync::Wait;

/// A client that sleeps until samples of any line have come, and lets the boards of lines know whose cells
/// it has made free. Contracts see of it how many released samples of each line its board was let know of,
/// the boards' alarms, whether it is announced, and whether no line had a scan at its last step, or all had ended.
#[derive(Drop)]
pub struct Watcher<'a> {
    sleeper: Sleeper<'a>,
    boards: Vec<Alarm<'a>>,
    told: Vec<u64>,
    idle: bool,
    over: bool,
}

impl<'a> Model for Watcher<'a> {
    ghost use Rattle.std.specs.Prelude.{◌≤◌, length};
    ghost use Rattle.cm_watch.specs.Told.{WatcherText};

    ghost Value = { WatcherText };

    ghost view = { λ w. record { told = w.told.items; boards = w.boards.items; announced = w.sleeper; idle = w.idle; over = w.over } };

    ghost invariant = { λ w. length w.told.items ≤ length w.boards.items };
}

impl<'a> Watcher<'a> {
    /// A client of lines of each of which so many samples are released.
    pub fn new(
        alloc: Global,
        events: &'a WatchEvents,
        released: Vec<u64>,
    ) -> Result<Watcher<'a>, NoMemory>
        requires { length released.items ≤ length events.now.lines.items }
        ensures told { IfOk result (λ w. w.told ≡ released.items) }
        ensures boards { IfOk result (λ w. w.boards ≡ map alarm_of events.now.lines.items) }
        ensures awake { IfOk result (λ w. w.announced ≡ false) }
        ensures idle { IfOk result (λ w. w.idle ≡ false) }
        ensures over { IfOk result (λ w. w.over ≡ false) }
    {
        Ok(Watcher {
            sleeper: events.client(),
            boards: events.boards(alloc)?,
            told: released,
            idle: false,
            over: false,
        })
    }

    /// The next step of the lines' streams. Where no line has a scan, the client has to wait before the one
    /// after it.
    pub fn step<P: Planned>(&mut self, merge: &mut Merge<P>) -> MergeStep
        requires waited { self.old.idle ≡ false }
        ensures merged { HasMerged result (first_after (length merge.old.streams) merge.old.last) merge.old.streams merge.new.streams }
        ensures idle { self.new.idle ≡ is_waiting result }
        ensures over { self.new.over ≡ is_over result }
        ensures told { self.new.told ≡ self.old.told }
        ensures boards { self.new.boards ≡ self.old.boards }
        ensures announced { self.new.announced ≡ self.old.announced }
    {
        let step = merge.step();
        self.idle = is_waiting(&step);
        self.over = is_over(&step);
        step
    }

    /// So many samples of a line are released: its board's alarm has those that it had not.
    pub fn release(&mut self, line: u32, released: u64)
        requires { line < length self.old.told }
        ensures told { self.new.told ≡ slice_set self.old.told line released }
        ensures rung { HasRung line (untold self.old.told line released) self.old self.new }
        ensures idle { self.new.idle ≡ self.old.idle }
        ensures over { self.new.over ≡ self.old.over }
    {
        self.sleeper.go_on();
        let line = line as usize;
        let count = released.saturating_sub(self.told[line]);
        self.told[line] = released;
        let board = &mut self.boards[line];
        board.add(count.min(u64::from(u32::MAX)) as u32);
    }

    /// No line has a scan, and each board was let know of all that is released: it sees to it that none waits
    /// for it, and waits.
    pub fn wait<R: Wait, P: Planned>(&mut self, rt: &R, merge: &Merge<P>)
        requires told { self.old.told ≡ map released_of merge.now.streams }
        ensures { self.new ≡ record self.old { boards = map rung self.old.boards; announced = not self.old.announced; idle = false } }
    {
        shows(merge);
        self.idle = false;
        let boards = self.boards.as_mut_slice();
        wake_all(boards);
        self.sleeper.wait(rt, boards);
    }
}

// Whether no line had a scan at a step.
fn is_waiting(step: &MergeStep) -> bool
    ensures { result ≡ is_waiting step.now }
{
    match step {
        MergeStep::Given(..) => false,
        MergeStep::Ended => false,
        MergeStep::Waiting => true,
        MergeStep::NoMemory(_) => false,
    }
}

// Whether all lines had ended at a step.
fn is_over(step: &MergeStep) -> bool
    ensures { result ≡ is_over step.now }
{
    match step {
        MergeStep::Given(..) => false,
        MergeStep::Ended => true,
        MergeStep::Waiting => false,
        MergeStep::NoMemory(_) => false,
    }
}

// Wakes each board for all samples that it wasn't woken for.
fn wake_all(boards: &mut [Alarm<'_>])
    ensures { boards.new ≡ map rung boards.old }
{
    for i in 0..boards.len() {
        let board = &mut boards[i];
        board.wake_for_rest();
    }
}
