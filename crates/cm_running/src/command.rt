// A command that runs: its ring, and the board that fills or empties it.
ghost use Rattle.std.specs.Prelude.{◌≡◌, ◌+◌, ◌-◌, ◌<◌, ◌≤◌, ◌^◌, ◌++◌, [], true, false, None, length, slice_index, IfOk, OnOk};
ghost use Rattle.cm_expand.specs.PlanView.{plan_text};
ghost use Rattle.cm_running.specs.Planned.{IsSchedule};
ghost use Rattle.cm_running.specs.Running.{has_stopped, is_out, started};
ghost use Rattle.cm_running.specs.Schedules.{schedule_of};
ghost use Rattle.cm_running.specs.ToCome.{end_shown, last_end_shown, quiet_end_shown};
ghost use Rattle.cm_running.specs.Triggering.{has_come};

use crate::filling::fill;
use crate::handing::HandsOver;
use crate::look_ahead::LookAhead;
use crate::pending::Pending;
use crate::putting::put_due;
use crate::storing::store;
use crate::text::{put_codes, put_looked, put_mapped, put_taken};
use cm_base::prover::shows;
use cm_base::source::INT;
use cm_base::transfer::NoMemory;
use cm_cmd::entry::chan;
use cm_expand::plan::Plan;
use cm_ring_core::local::{LocalRing, Places};
use cm_sample::rule::MungeRule;
use cm_text::end::End;
use cm_text::sample_lines::SampleLines;
use std::alloc::Global;
use std::marker::Model;

/// A command that runs.
#[derive(Drop)]
pub struct Command<'a> {
    plan: Plan<'a>,
    out: bool,
    ring: LocalRing,
    board: Pending<'a>,
    lines: SampleLines<'a>,
    end: Option<End>,
    // Made when a time is first awaited.
    ahead: Option<LookAhead<'a>>,
}

impl<'a> Model for Command<'a> {
    ghost use Rattle.cm_running.specs.Running.{Running};

    ghost Value = { Running };

    ghost use Rattle.cm_running.specs.CommandView.{running_of, IsCommand};

    ghost view = { running_of };

    ghost invariant = { IsCommand };
}

impl<'a> Command<'a> {
    ghost use Rattle.std.specs.Prelude.{◌≡◌, ◌≤◌, ◌<◌, ◌^◌, ◌+◌, ◌-◌, ◌++◌, Some, None, true, false, length, min, slice_get, slice_index, IfOk, OnOk};
    ghost use Rattle.cm_board.specs.Board.{maxdata_of};
    ghost use Rattle.cm_cmd.specs.Entry as bits;
    ghost use Rattle.cm_expand.specs.Rule.{rule_of};
    ghost use Rattle.cm_fifo.specs.Handed.{time_or};
    ghost use Rattle.cm_expand.specs.Rule.{entry_at};
    ghost use Rattle.cm_text.specs.Outputs.{output_texts};
    ghost use Rattle.cm_running.specs.Awaiting.{await_time, deciding, is_served, quiet_time};
    ghost use Rattle.cm_running.specs.Reading.{map_on, mapping, peeked, read_on, reported_end, runs_on, taken};
    ghost use Rattle.cm_running.specs.Running.{arrived, brought, collected, due, is_out, moved_on, put_out, samples, served};
    ghost use Rattle.cm_running.specs.Texts.{codes_text, looked_text, taken_text};
    ghost use Rattle.cm_running.specs.Triggering.{takes_number, trigger_on, waits};
    ghost use Rattle.cm_running.specs.Writing.{fill_on, mark_on, taken_in, write_on};

    /// A command that starts now, by a plan and with the buffer's munge of its command.
    pub fn start(alloc: Global, plan: Plan<'a>, rule: MungeRule) -> Result<Command<'a>, NoMemory>
        requires rule { rule ≡ rule_of (plan_text plan).sub (plan_text plan).cmd }
        requires planned { IsSchedule (schedule_of (plan_text plan)) }
        ensures { IfOk result (λ command. command ≡ started (schedule_of (plan_text plan.entry))) }
    {
        let sub = plan.sub();
        Ok(Command {
            plan,
            out: sub.kind.is_output(),
            ring: LocalRing::open(alloc, sub.buffer, rule)?,
            board: Pending::new(alloc, plan)?,
            lines: SampleLines::new(alloc, plan)?,
            end: None,
            ahead: None,
        })
    }

    /// Whether the command waits for its internal trigger at a time.
    pub fn waits(&self, time: u64) -> bool
        ensures { result ≡ waits time (Some self.now) }
    {
        let cmd = self.plan.command();
        cmd.start.src == INT && !has_come(self.plan.start(), time)
    }

    /// Whether a trigger with this number starts the command.
    pub fn takes_number(&self, number: u32) -> bool
        ensures { result ≡ takes_number number (Some self.now) }
    {
        let cmd = self.plan.command();
        cmd.start.arg == number
    }

    /// Gives the command its internal trigger at a time, unless it has ended. Nothing has come yet.
    pub fn trigger(&mut self, alloc: Global, time: u64) -> Result<(), NoMemory>
        requires early { served self.old ≡ 0 }
        requires called { self.old.schedule.plan.t0 ≤ time }
        requires within { time ≤ self.old.schedule.horizon }
        ensures { OnOk result (self.new ≡ trigger_on time self.old) }
    {
        if self.end.is_some() {
            return Ok(());
        }
        let plan = self.plan.triggered(time);
        // These reads show what holds of the plan's subdevice and of its signals.
        let sub = plan.sub();
        let signals = plan.signals();
        shows(&sub.list_max);
        shows(&signals.horizon);
        self.board = Pending::new(alloc, plan)?;
        self.plan = plan;
        self.ahead = None;
        Ok(())
    }

    /// The places of the buffer.
    pub fn places(&self) -> Places
        ensures r { result.r ≡ self.now.r }
        ensures ra { result.ra ≡ self.now.ra }
        ensures w { result.w ≡ self.now.w }
        ensures a { result.a ≡ self.now.a }
        ensures r_ra { self.now.r ≤ self.now.ra }
        ensures ra_w { self.now.ra ≤ self.now.w }
        ensures w_a { self.now.w ≤ self.now.a }
        ensures room { self.now.a ≤ self.now.r + 2 ^ 20 }
        ensures small { self.now.a < 2 ^ 62 }
    {
        self.ring.room();
        self.ring.places()
    }

    /// The greatest word of a place: that of its channel.
    pub fn most_at(&self, place: u64) -> u32
        ensures { result ≡ maxdata_of self.now.schedule.plan.sub (bits.chan (entry_at self.now.schedule.format.list place)) }
    {
        let cmd = self.plan.command();
        let entry = cmd.list[(place % cmd.list.len() as u64) as usize];
        let sub = self.plan.sub();
        sub.maxdata_of(chan(entry))
    }

    /// Brings the command to a time: what has come by then is written or put out, as far as the
    /// buffer serves, and the end is reported where it has come. The lines of what is put out are
    /// appended.
    pub fn bring_to(&mut self, index: u32, time: u64, text: &mut Vec<u8>) -> Result<(), NoMemory>
        requires ready { served self.old ≤ arrived self.old.schedule time }
        ensures after { OnOk result (self.new ≡ brought time self.old) }
        ensures text { OnOk result (text.new.items ≡ text.old.items ++ output_texts (due index time self.old)) }
    {
        match self.end {
            Some(_) => Ok(()),
            None => self.move_on(index, time, text),
        }
    }

    // The same for a command that hasn't ended.
    fn move_on(&mut self, index: u32, time: u64, text: &mut Vec<u8>) -> Result<(), NoMemory>
        requires ready { served self.old ≤ arrived self.old.schedule time }
        requires runs { self.old.end ≡ None }
        ensures after { OnOk result (self.new ≡ moved_on self.old time) }
        ensures text { OnOk result (text.new.items ≡ text.old.items ++ output_texts (due index time self.old)) }
    {
        if self.out {
            self.put_out(index, time, text)
        } else {
            self.collect(time);
            Ok(())
        }
    }

    // What an input does: what has come is written, as far as there is room.
    fn collect(&mut self, time: u64)
        requires input { is_out self.old.schedule ≡ false }
        requires ready { self.old.w ≤ arrived self.old.schedule time }
        ensures { self.new ≡ collected self.old time }
    {
        fill(&mut self.ring, &mut self.board, time);
        let places = self.ring.places();
        let horizon = self.plan.horizon();
        let missed = End::Overrun(places.w);
        self.end = shown_end(&mut self.board, missed, places.w, horizon, time);
    }

    // What an output does: the words of what has come are put out, as far as they are marked.
    fn put_out(&mut self, index: u32, time: u64, text: &mut Vec<u8>) -> Result<(), NoMemory>
        requires output { is_out self.old.schedule ≡ true }
        requires ready { self.old.r ≤ arrived self.old.schedule time }
        requires runs { self.old.end ≡ None }
        ensures after { OnOk result (self.new ≡ put_out self.old time) }
        ensures text { OnOk result (text.new.items ≡ text.old.items ++ output_texts (due index time self.old)) }
    {
        self.ring.room();
        let reported = put_due(text, index, &mut self.ring, &mut self.board, time);
        let places = self.ring.places();
        let horizon = self.plan.horizon();
        let missed = End::Underrun(places.w);
        self.end = shown_end(&mut self.board, missed, places.r, horizon, time);
        reported
    }

    /// The end that is reported: of an input only where nothing is left to read.
    pub fn reported_end(&self) -> Option<End>
        ensures { result ≡ reported_end self.now }
    {
        let places = self.ring.places();
        if self.out || places.r == places.w {
            self.end
        } else {
            None
        }
    }

    /// Whether no end is reported.
    pub fn runs_on(&self) -> bool
        ensures { result ≡ runs_on self.now }
    {
        self.reported_end().is_none()
    }

    /// Reads up to `n` samples, and appends the answer that has them.
    pub fn read(&mut self, n: u32, text: &mut Vec<u8>) -> Result<(), NoMemory>
        requires input { is_out self.old.schedule ≡ false }
        requires unmapped { self.old.ra ≡ self.old.r }
        ensures after { self.new ≡ read_on n self.old }
        ensures answer { OnOk result (text.new.items ≡ text.old.items ++ taken_text self.old.schedule.format self.old.r (taken n self.old)) }
    {
        let granted = self.ring.read_alloc(n);
        let reported = put_taken(text, &mut self.lines, &self.ring, granted);
        self.ring.read_free(granted);
        reported
    }

    /// Reads up to `n` samples, and appends them in codes.
    pub fn read_codes(&mut self, n: u32, text: &mut Vec<u8>) -> Result<(), NoMemory>
        requires input { is_out self.old.schedule ≡ false }
        requires unmapped { self.old.ra ≡ self.old.r }
        ensures after { self.new ≡ read_on n self.old }
        ensures answer { OnOk result (text.new.items ≡ text.old.items ++ codes_text (taken n self.old)) }
    {
        let granted = self.ring.read_alloc(n);
        let reported = put_codes(text, &self.ring, granted);
        self.ring.read_free(granted);
        reported
    }

    /// Maps up to `n` more samples, and reports how many.
    pub fn map(&mut self, n: u32) -> u32
        requires { is_out self.old.schedule ≡ false }
        ensures count { result ≡ mapping n self.old }
        ensures after { self.new ≡ map_on n self.old }
    {
        self.ring.read_alloc(n)
    }

    /// Appends the answer that has the mapped sample `i`.
    pub fn look(&self, i: u32, text: &mut Vec<u8>) -> Result<(), NoMemory>
        requires input { is_out self.now.schedule ≡ false }
        requires mapped { i < self.now.ra - self.now.r }
        ensures { OnOk result (text.new.items ≡ text.old.items ++ looked_text self.now.schedule.format (self.now.r + i) (slice_index (samples self.now.schedule) (self.now.r + i))) }
    {
        put_looked(text, &self.lines, &self.ring, i)
    }

    /// Releases `k` mapped samples.
    pub fn release(&mut self, k: u32)
        requires input { is_out self.old.schedule ≡ false }
        requires mapped { k ≤ self.old.ra - self.old.r }
        ensures { self.new ≡ record self.old { r = self.old.r + k } }
    {
        self.ring.read_free(k);
    }

    /// Appends up to `n` of the mapped samples in codes, from the one `from` places after the first on.
    pub fn peek(&self, from: u32, n: u32, text: &mut Vec<u8>) -> Result<(), NoMemory>
        ensures { OnOk result (text.new.items ≡ text.old.items ++ codes_text (peeked from n (Some self.now))) }
    {
        let places = self.places();
        let mapped = (places.ra - places.r) as u32;
        put_mapped(text, &self.ring, from, n.min(mapped.saturating_sub(from)))
    }

    /// The least time from `from` on, to which the command was brought, at which it holds `n`
    /// samples, or of an output has room for `n` words, or has ended; or the horizon.
    pub fn await_time(&mut self, alloc: Global, n: u32, from: u64) -> Result<u64, NoMemory>
        ensures same { self.new ≡ self.old }
        ensures time { IfOk result (λ time. time ≡ await_time n from (Some self.old)) }
    {
        if self.is_served(n) || self.end.is_some() {
            return Ok(from);
        }
        let place = self.deciding(n);
        self.time_at(alloc, place)
    }

    // When the conversion at a place reaches the buffer, or where there is none, when the command ends,
    // by the horizon.
    fn time_at(&mut self, alloc: Global, place: u64) -> Result<u64, NoMemory>
        ensures same { self.new ≡ self.old }
        ensures time { IfOk result (λ time. time ≡ min self.old.schedule.horizon (time_or (quiet_time self.old.schedule) (slice_get self.old.schedule.arrivals place))) }
    {
        let mut ahead = self.take_ahead(alloc)?;
        let time = ahead.time_at(alloc, place)?;
        self.ahead = Some(ahead);
        Ok(time)
    }

    // The look ahead of times awaited before, or a new one.
    fn take_ahead(&mut self, alloc: Global) -> Result<LookAhead<'a>, NoMemory>
        ensures same { self.new ≡ self.old }
        ensures ahead { IfOk result (λ ahead. ahead.schedule ≡ self.old.schedule) }
    {
        match self.ahead.take() {
            Some(ahead) => Ok(ahead),
            None => LookAhead::new(alloc, self.plan),
        }
    }

    // Whether so many samples are held, or of an output there is room for so many words.
    fn is_served(&self, n: u32) -> bool
        ensures { result ≡ is_served n self.now }
    {
        let places = self.places();
        if self.out {
            let sub = self.plan.sub();
            places.a + u64::from(n) <= places.r + u64::from(sub.buffer)
        } else {
            u64::from(n) <= places.w - places.r
        }
    }

    // The place whose conversion decides, where that isn't so.
    fn deciding(&self, n: u32) -> u64
        requires { is_served n self.now ≡ false }
        ensures { result ≡ deciding n self.now }
    {
        let places = self.places();
        let sub = self.plan.sub();
        if self.out {
            places
                .w
                .min(places.a + u64::from(n) - u64::from(sub.buffer) - 1)
        } else {
            places.r + u64::from(sub.buffer.min(n - 1))
        }
    }

    /// Stores the first of some words, as far as there is room, and reports how many.
    pub fn fill(&mut self, words: &[u32]) -> u32
        requires output { is_out self.old.schedule ≡ true }
        requires few { length words.now ≤ 1024 }
        ensures count { result ≡ length (taken_in words.now self.old) }
        ensures after { self.new ≡ fill_on (taken_in words.now self.old) self.old }
    {
        self.ring.room();
        store(&mut self.ring, words)
    }

    /// Marks `k` words that are stored and not marked, which munges them.
    pub fn mark(&mut self, k: u32)
        requires output { is_out self.old.schedule ≡ true }
        requires filled { k ≤ self.old.a - self.old.w }
        ensures { self.new ≡ mark_on k self.old }
    {
        self.ring.write_free(k);
        self.ring.munge_to_written();
    }

    /// Stores the first of some words, as far as there is room, and marks them. Reports how many.
    pub fn write(&mut self, words: &[u32]) -> u32
        requires output { is_out self.old.schedule ≡ true }
        requires few { length words.now ≤ 1024 }
        ensures count { result ≡ length (taken_in words.now self.old) }
        ensures after { self.new ≡ write_on (taken_in words.now self.old) self.old }
    {
        self.places();
        let count = self.fill(words);
        self.mark(count);
        count
    }
}

// Whether a start has come by a time.
fn has_come(start: Option<u64>, time: u64) -> bool
    ensures { result ≡ has_come start time }
{
    match start {
        None => false,
        Some(start) => start <= time,
    }
}

// The end that a board shows by a time.
fn shown_end(
    board: &mut Pending<'_>,
    missed: End,
    served: u64,
    horizon: u64,
    time: u64,
) -> Option<End>
    ensures value { result ≡ end_shown board.old missed served horizon time }
    ensures after { board.new ≡ board.old }
{
    match board.next_time() {
        None => last_end(board, served, horizon, time),
        Some(next) => { if next <= time { Some(missed) } else { None } }
    }
}

// The end that comes when nothing is left to come.
fn last_end(board: &Pending<'_>, served: u64, horizon: u64, time: u64) -> Option<End>
    requires { board.now.conversions ≡ [] }
    ensures { result ≡ last_end_shown board.now served horizon time }
{
    match board.lost_at() {
        None => quiet_end(board.is_complete(), board.stop_edge(), horizon, time),
        Some(lost) => {
            if lost <= time {
                Some(End::Fifo(served))
            } else {
                None
            }
        }
    }
}

// The end that comes without a loss when nothing is left to come.
fn quiet_end(complete: bool, edge: Option<u64>, horizon: u64, time: u64) -> Option<End>
    ensures { result ≡ quiet_end_shown complete edge horizon time }
{
    if complete {
        if has_stopped(edge, time) {
            Some(End::Done)
        } else {
            None
        }
    } else if time == horizon {
        Some(End::Dry)
    } else {
        None
    }
}

// Whether the edge that stops a command has come, where one stops it.
fn has_stopped(edge: Option<u64>, time: u64) -> bool
    ensures { result ≡ has_stopped edge time }
{
    match edge {
        Some(edge) => edge <= time,
        None => true,
    }
}
