// How the workers of a ring wait for each other.

use cm_base::prover::shows;
use crossbeam_utils::Backoff;
use crossbeam_utils::sync::{EventCount, Key};
use std::marker::Model;
use std::slice;
use std::sync::Wait;

/// How a worker of a ring waits for the others, and lets them know of what it has done. It decides when
/// a worker runs, and nothing of what that reads or puts. Contracts see what each call makes of it: code that
/// knows no more of it has that from the call alone.
pub trait Waiting: Drop {
    ghost use Rattle.std.specs.Prelude.{ℕ};

    /// What it was and is where it has let the next worker know of so many.
    ghost has_handed_on: { Self → ℕ → Self → Type 0 };

    /// What it was and is where it has waited.
    ghost has_waited: { Self → Self → Type 0 };

    /// What it was and is where it has let the next worker know of the end.
    ghost has_ended: { Self → Self → Type 0 };

    /// So many samples, or cells that are free again, are there for the next worker.
    fn hand_on(&mut self, count: u32)
        ensures { has_handed_on self.old count self.new };

    /// The worker has found nothing to do: it waits, or looks once more.
    fn wait<R: Wait>(&mut self, rt: &R)
        ensures { has_waited self.old self.new };

    /// The worker has ended.
    fn end(&mut self)
        ensures { has_ended self.old self.new };
}

/// A worker that looks again and again, and gives its processor to others between two looks.
impl Waiting for Backoff {
    ghost has_handed_on = { λ _ _ _. Unit {0} };

    ghost has_waited = { λ _ _. Unit {0} };

    ghost has_ended = { λ _ _. Unit {0} };

    fn hand_on(&mut self, _count: u32) {}

    fn wait<R: Wait>(&mut self, _rt: &R) {
        self.snooze();
    }

    fn end(&mut self) {}
}

/// A worker that sleeps until an event (Comedi: the `wait_head` of a `comedi_async`). Contracts see of
/// it whether it is announced, so that its next wait is a sleep.
#[derive(Drop)]
pub struct Sleeper<'a> {
    event: &'a EventCount,
    key: Option<Key<'a>>,
}

impl<'a> Model for Sleeper<'a> {
    ghost use Rattle.std.specs.Prelude.{Bool, is_some};

    ghost Value = { Bool };

    ghost view = { λ s. is_some s.key };
}

impl<'a> Sleeper<'a> {
    ghost use Rattle.std.specs.Prelude.{◌≡◌, false, not};
    ghost use Rattle.cm_client.specs.Waiting.{HaveRung};

    /// A worker that has looked for nothing yet.
    pub fn new(event: &'a EventCount) -> Sleeper<'a>
        ensures { result ≡ false }
    {
        Sleeper { event, key: None }
    }

    /// The worker has found something to do.
    pub fn go_on(&mut self)
        ensures { self.new ≡ false }
    {
        self.key = None;
    }

    /// The worker has found nothing to do, and has woken the others by its alarms. It is announced first, so
    /// that it looks once more. Where it finds nothing then, it sleeps until an event that comes after it was
    /// announced.
    pub fn wait<R: Wait>(&mut self, rt: &R, alarms: &[Alarm<'_>])
        requires { HaveRung alarms.now }
        ensures { self.new ≡ not self.old }
    {
        shows(&alarms);
        match self.key.take() {
            None => self.key = Some(self.event.prepare_wait()),
            Some(key) => key.wait(rt),
        }
    }
}

/// Wakes the workers that sleep until an event, once for many samples. Contracts see of it after how
/// many, and how many came since it woke them last.
#[derive(Drop)]
pub struct Alarm<'a> {
    event: &'a EventCount,
    every: u32,
    count: u32,
}

impl<'a> Model for Alarm<'a> {
    ghost use Rattle.cm_client.specs.Waiting.{AlarmText};

    ghost Value = { AlarmText };

    ghost view = { λ a. record { every = a.every; count = a.count } };
}

impl<'a> Alarm<'a> {
    ghost use Rattle.std.specs.Prelude.{◌≡◌, ◌+◌, ◌<◌, ◌≤◌};

    /// It wakes them after each `every` samples.
    pub fn new(event: &'a EventCount, every: u32) -> Alarm<'a>
        ensures { result ≡ record { every = every; count = 0 } }
    {
        Alarm {
            event,
            every,
            count: 0,
        }
    }

    /// There are so many samples more.
    pub fn add(&mut self, count: u32)
        ensures every { self.old.every ≤ 4294967295 }
        ensures woken { self.old.every ≤ self.old.count + count → self.new ≡ record self.old { count = 0 } }
        ensures kept { self.old.count + count < self.old.every → self.new ≡ record self.old { count = self.old.count + count } }
    {
        self.count = self.count.saturating_add(count);
        if self.count >= self.every {
            self.wake();
        }
    }

    /// Wakes them where there are samples that they weren't woken for.
    pub fn wake_for_rest(&mut self)
        ensures { self.new ≡ record self.old { count = 0 } }
    {
        if self.count > 0 {
            self.wake();
        }
    }

    /// Wakes them.
    pub fn wake(&mut self)
        ensures { self.new ≡ record self.old { count = 0 } }
    {
        self.count = 0;
        self.event.notify_all();
    }
}

/// A worker that sleeps while it has nothing to do, and wakes the next one.
#[derive(Drop)]
pub struct Relay<'a> {
    pub sleeper: Sleeper<'a>,
    pub alarm: Alarm<'a>,
}

impl<'a> Relay<'a> {
    ghost use Rattle.std.specs.Prelude.{◌≡◌, false};

    /// A worker that sleeps until an event of its own, and wakes the next one for each `every` samples.
    pub fn new(own: &'a EventCount, next: &'a EventCount, every: u32) -> Relay<'a>
        ensures sleeper { result.sleeper ≡ false }
        ensures alarm { result.alarm ≡ record { every = every; count = 0 } }
    {
        Relay {
            sleeper: Sleeper::new(own),
            alarm: Alarm::new(next, every),
        }
    }
}

impl Waiting for Relay<'_> {
    ghost use Rattle.cm_client.specs.Waiting.{HasEnded, HasHandedOn, HasWaited};

    ghost has_handed_on = { λ old count new. HasHandedOn count old.alarm new.sleeper new.alarm };

    ghost has_waited = { λ old new. HasWaited old.sleeper old.alarm new.sleeper new.alarm };

    ghost has_ended = { λ old new. HasEnded old.alarm new.alarm };

    fn hand_on(&mut self, count: u32) {
        if count > 0 {
            self.sleeper.go_on();
            self.alarm.add(count);
        }
    }

    fn wait<R: Wait>(&mut self, rt: &R) {
        self.alarm.wake_for_rest();
        self.sleeper.wait(rt, slice::from_ref(&self.alarm));
    }

    fn end(&mut self) {
        self.alarm.wake();
    }
}
