// A gate that holds threads. It counts, by numbers that any thread raises, and each wait has a limit, so that it takes no
// leave to wait.
use cm_base::gate::Gate;
use std::sync::atomic::{AtomicU64, Ordering};
use std::thread;

// The most turns that a thread is held, and that one is for which the other one isn't to come.
const TURNS: u32 = 10_000_000;

const FEW_TURNS: u32 = 1_000_000;

/// A pass of a point: the line whose worker passes it, the point, and its how manieth pass it is, from 1.
#[derive(Clone, Copy)]
pub struct Pass(pub u32, pub u32, pub u64);

/// What comes of two passes.
#[derive(Clone, Copy, PartialEq, Eq)]
pub enum Meeting {
    /// The first is held until the other one has come.
    Held,
    /// Each is held until the other one has come. One thread never gets past them.
    Met,
    /// The same, but they don't meet: the one that comes first is held up to the limit.
    Missed,
}

// How often a point was passed by a worker of a line, and the pass that counts.
#[derive(Drop)]
struct Watch {
    pass: Pass,
    seen: AtomicU64,
}

impl Watch {
    fn new(pass: Pass) -> Watch {
        Watch {
            pass,
            seen: AtomicU64::new(0),
        }
    }

    // Whether this is the pass that counts.
    fn comes(&self, who: u32, point: u32) -> bool {
        who == self.pass.0
            && point == self.pass.1
            && self.seen.fetch_add(1, Ordering::SeqCst).wrapping_add(1) == self.pass.2
    }

    // Whether the pass that counts has come.
    fn came(&self) -> bool {
        self.pass.2 <= self.seen.load(Ordering::SeqCst)
    }

    // Waits until it comes, and reports whether it came within so many turns.
    fn wait(&self, turns: u32) -> bool {
        for _ in 0..turns {
            if self.came() {
                return true;
            }
            thread::yield_now();
        }
        false
    }
}

/// Holds workers at two passes.
#[derive(Drop)]
pub struct MeetGate {
    one: Watch,
    other: Watch,
    meeting: Meeting,
    late: AtomicU64,
}

impl MeetGate {
    pub fn new(one: Pass, other: Pass, meeting: Meeting) -> MeetGate {
        MeetGate {
            one: Watch::new(one),
            other: Watch::new(other),
            meeting,
            late: AtomicU64::new(0),
        }
    }

    /// Whether both passes came, as their meeting is to go.
    pub fn has_ended(&self) -> bool {
        let late = self.late.load(Ordering::SeqCst) == 1;
        self.one.came() && self.other.came() && late == (self.meeting == Meeting::Missed)
    }

    // Holds a worker until a pass has come.
    fn hold(&self, until: &Watch) {
        let turns = if self.meeting == Meeting::Missed {
            FEW_TURNS
        } else {
            TURNS
        };
        if !until.wait(turns) {
            self.late.store(1, Ordering::SeqCst);
        }
    }
}

impl Gate for MeetGate {
    fn pass(&self, who: u32, point: u32) {
        if self.one.comes(who, point) {
            self.hold(&self.other);
        } else if self.other.comes(who, point) && self.meeting != Meeting::Held {
            self.hold(&self.one);
        }
    }
}
