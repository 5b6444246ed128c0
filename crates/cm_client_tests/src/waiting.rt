// Workers that sleep until others wake them.
use cm_client::waiting::{Relay, Waiting};
use crossbeam_utils::sync::EventCount;
use std::sync::Wait;
use std::sync::atomic::{AtomicU64, Ordering};
use std::thread::{Threads, join};

const TURNS: u64 = 10_000;

// Counts on where the count is even or odd, and sleeps where it isn't.
fn take_turns<R: Wait + Sync>(rt: &R, count: &AtomicU64, odd: u64, mut relay: Relay<'_>) {
    for _ in rt.forever() {
        let now = count.load(Ordering::SeqCst);
        if now >= TURNS {
            break;
        }
        if now % 2 == odd {
            count.store(now + 1, Ordering::SeqCst);
            relay.hand_on(1);
        } else {
            relay.wait(rt);
        }
    }
    relay.end();
}

// With so many samples for each time that the other worker is woken.
fn turns_end<R: Threads + Wait + Sync>(rt: &R, every: u32) -> u64 {
    let count = AtomicU64::new(0);
    let (even, odd) = (EventCount::new(), EventCount::new());
    let (counts, evens, odds) = (&count, &even, &odd);
    join(
        rt,
        move || {
            let relay = Relay::new(evens, odds, every);
            take_turns(rt, counts, 0, relay)
        },
        move || {
            let relay = Relay::new(odds, evens, every);
            take_turns(rt, counts, 1, relay)
        },
    );
    count.load(Ordering::SeqCst)
}

// No wake is lost: a worker that isn't woken for each sample is woken before the other one waits.
#[test]
fn two_workers_take_turns(rt: HostRuntime) {
    for every in [1, 2, 1000] {
        assert!(rt; turns_end(&rt, every) == TURNS, "woken for each {every}");
    }
}
