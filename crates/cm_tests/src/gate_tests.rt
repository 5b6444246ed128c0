// Jobs with threads whose workers are held at the points of a gate.
use crate::boards;
use crate::gates::{MeetGate, Meeting, Pass};
use crate::job::Job;
use std::test::Fail;

const FIVE: &str = "0 -153\n0 999923\n0 2000000\n0 2999771\n0 3999847\ndone\n";

// Two lines of one subdevice.
const TWO_LINES: Job = Job {
    words: &["run"],
    signals: boards::TABLE,
    lines: "go paced copy 0 all 0 0 now:0 timer:1000 now:0 count:1 count:3 0/0/ground\ngo paced map 2000 all 0 0 now:0 timer:1000 now:0 count:1 count:2 0/0/ground\n",
    answer: "0 -153\n0 999923\n0 2000000\ndone\n0 2000000\n0 2999771\ndone\n",
};

const FREE_FIVE: Job = Job {
    words: &["run"],
    signals: boards::TABLE,
    lines: "go free map 0 all 0 0 now:0 timer:1000 now:0 count:1 count:5 0/0/ground\n",
    answer: FIVE,
};

const FREE_SIX: Job = Job {
    words: &["run"],
    signals: boards::TABLE,
    lines: "go free map 0 all 0 0 now:0 timer:1000 now:0 count:1 count:6 0/0/ground\n",
    answer: "0 -153\n0 999923\n0 2000000\n0 2999771\noverrun 4\n",
};

const PACED_FIVE: Job = Job {
    words: &["run"],
    signals: boards::TABLE,
    lines: "go paced map 0 all 0 0 now:0 timer:1000 now:0 count:1 count:5 0/0/ground\n",
    answer: FIVE,
};

const PACED_SIX: Job = Job {
    words: &["run"],
    signals: boards::TABLE,
    lines: "go paced map 0 all 0 0 now:0 timer:1000 now:0 count:1 count:6 0/0/ground\n",
    answer: "0 -153\n0 999923\n0 2000000\n0 2999771\n0 3999847\n0 4999923\ndone\n",
};

const SOAK: Job = Job {
    words: &["soak", "4096"],
    signals: boards::TABLE,
    lines: "",
    answer: "soak 0 1024 8379393 done\nsoak 1 1024 8379393 done\nsoak 2 1024 8379393 done\nsoak 3 1024 8379393 done\ntotal 4096\n",
};

const LOOP: Job = Job {
    words: &["loop"],
    signals: "signals 20000\nwave 0 0 square -10000000 10000000 2000\nsession\n",
    lines: "loop 0 500 1 0 0 now:0 timer:1000 now:0 count:1 count:13 0/0/ground 1 0 now:0 timer:1000 now:0 count:1 count:13 0/0/ground\n",
    answer: "out 1 500 0 2048\nout 1 1500 0 2047\nout 1 2500 0 2048\nout 1 3500 0 2047\nout 1 4500 0 2048\nout 1 5500 0 2047\nout 1 6500 0 2048\nout 1 7500 0 2047\nout 1 8500 0 2048\nout 1 9500 0 2047\nout 1 10500 0 2048\nout 1 11500 0 2047\nout 1 12500 0 2048\ndone\n",
};

const WATCH_FIVE: Job = Job {
    words: &["watch"],
    ..PACED_FIVE
};

const WATCH_TWO: Job = Job {
    words: &["watch"],
    ..TWO_LINES
};

// The gate that a job goes through: of which two passes, and what comes of them.
static ROWS: [(Job, Pass, Pass, Meeting); 10] = [
    // A client that is held until the board has found the ring full: a free line loses the fifth sample, and a paced one
    // waits.
    (FREE_SIX, Pass(0, 3, 1), Pass(0, 2, 1), Meeting::Held),
    (PACED_SIX, Pass(0, 3, 1), Pass(0, 2, 1), Meeting::Held),
    // A board that is held until its client has released loses nothing, though its line is free.
    (FREE_FIVE, Pass(0, 1, 2), Pass(0, 4, 1), Meeting::Held),
    // Two workers that meet are two threads: the board and the client of a line, the board and the one client of a watch,
    // a board and a client of a soak, and the input's board and the output's client of a loop, of which the one has come to
    // the end of its ring when the other has read some words.
    (PACED_FIVE, Pass(0, 1, 2), Pass(0, 3, 1), Meeting::Met),
    (WATCH_FIVE, Pass(0, 1, 2), Pass(0, 4, 1), Meeting::Met),
    (SOAK, Pass(0, 1, 2), Pass(0, 3, 1), Meeting::Met),
    (LOOP, Pass(0, 1, 4), Pass(1, 4, 1), Meeting::Met),
    // The boards of two lines of one subdevice never meet: a line has it until its workers have ended. Those of two lines
    // of a soak, which are of two subdevices, do.
    (TWO_LINES, Pass(0, 1, 1), Pass(1, 1, 1), Meeting::Missed),
    (WATCH_TWO, Pass(0, 1, 1), Pass(1, 1, 1), Meeting::Missed),
    (SOAK, Pass(0, 1, 1), Pass(1, 1, 1), Meeting::Met),
];

#[test]
fn workers_are_held_at_gates(rt: HostRuntime) -> Result<(), Fail> {
    for (job, one, other, meeting) in &ROWS {
        let gate = MeetGate::new(*one, *other, *meeting);
        let answered = job.is_answered(&rt, rt.alloc(), &gate)?;
        assert!(&rt; answered && gate.has_ended(), "{}", job.lines);
    }
    Ok(())
}
