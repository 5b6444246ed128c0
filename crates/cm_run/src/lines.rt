// The lines of a job beside each other.
ghost use Rattle.std.specs.Prelude.{◌≡◌, ◌<◌, ◌≤◌, ℕ, [], length, IfOk};
ghost use Rattle.std.specs.Thread.{IsSend, IsSync};
ghost use Rattle.cm_client.specs.Idle.{IsIdle};
ghost use Rattle.cm_run.specs.Lines.{CanStream, HasPlaces, HasStreamed, HaveStreamed, IsSub};

use cm_base::transfer::NoMemory;
use cm_client::claiming::{another_seat, claim_waiting};
use cm_job::job::RunJob;
use cm_sub::owners::{OwnerSeat, Owners};
use cm_sub::state::SubState;
use std::alloc::Global;
use std::sync::Wait;
use std::thread::{Threads, join};

// The subdevice of the line at a place.
fn sub_at(job: &RunJob, place: usize) -> u32
    requires place { place < length job.now.lines }
    ensures sub { IsSub job.now.lines place result }
    ensures place { result < length job.now.board.subs }
{
    job.lines[place].sub()
}

// The thread of the line at a place: its seat holds its subdevice from before its ring is opened until its
// workers have ended. Its stream borrows the seat, and what the subdevice keeps, which the claim gave and which
// goes back with it.
fn line_work<
    R: Threads + Wait + Sync,
    D: Send + Drop,
    F: Fn(usize, &OwnerSeat, &SubState) -> Result<D, NoMemory> + Sync,
>(
    rt: &R,
    owners: &Owners,
    seat: &mut OwnerSeat,
    job: &RunJob,
    place: usize,
    stream: &F,
) -> Result<D, NoMemory>
    requires idle { IsIdle owners.now seat.old }
    requires places { HasPlaces job.now.board owners.now }
    requires place { place < length job.now.lines }
    requires can { CanStream owners.now job.now.lines (F.pre stream.now) place }
    ensures made { HasStreamed owners.now job.now.lines (F.post stream.now) place result }
    ensures idle { IsIdle owners.now seat.new }
{
    let sub = sub_at(job, place);
    let state = claim_waiting(rt, owners, seat, sub);
    let made = stream(place, seat, &state);
    owners.give_back(seat, sub, state);
    made
}

/// Streams the first `count` lines of a job beside each other, each by a call of `stream` with its place, a
/// seat of these owners that holds its subdevice and what that keeps. Answers after all have ended: what the calls have
/// made, in the order of the lines.
pub(crate) fn lines_up_to<
    R: Threads + Wait + Sync,
    D: Send + Drop,
    F: Fn(usize, &OwnerSeat, &SubState) -> Result<D, NoMemory> + Sync,
>(
    rt: &R,
    alloc: Global,
    owners: &Owners,
    mut seat: OwnerSeat,
    job: &RunJob,
    count: usize,
    stream: &F,
) -> Result<Vec<D>, NoMemory>
    requires idle { IsIdle owners.now seat }
    requires places { HasPlaces job.now.board owners.now }
    requires count { count ≤ length job.now.lines }
    requires can { (place : ℕ) → place < count → CanStream owners.now job.now.lines (F.pre stream.now) place }
    ensures { IfOk result (λ made. HaveStreamed owners.now job.now.lines (F.post stream.now) count made.items) }
{
    if count == 0 {
        return Ok(Vec::new(alloc));
    }
    let theirs = another_seat(owners, &mut seat);
    let last = count - 1;
    let (one, before) = join(
        rt,
        move || -> Result<D, NoMemory>
            requires idle { IsIdle owners.now theirs }
            requires places { HasPlaces job.now.board owners.now }
            requires place { last < length job.now.lines }
            requires can { CanStream owners.now job.now.lines (F.pre stream.now) last }
            ensures { HasStreamed owners.entry.now job.entry.now.lines (F.post stream.entry.now) last result }
        {
            let mut seat = theirs;
            line_work(rt, owners, &mut seat, job, last, stream)
        },
        move || -> Result<Vec<D>, NoMemory>
            requires threads { IsSync R.row × IsSync F.row × IsSend D.row }
            requires idle { IsIdle owners.now seat }
            requires places { HasPlaces job.now.board owners.now }
            requires count { last ≤ length job.now.lines }
            requires can { (place : ℕ) → place < last → CanStream owners.now job.now.lines (F.pre stream.now) place }
            ensures { IfOk result (λ made. HaveStreamed owners.entry.now job.entry.now.lines (F.post stream.entry.now) last made.items) }
        { lines_up_to(rt, alloc, owners, seat, job, last, stream) },
    );
    let mut made = before?;
    made.push(one?)?;
    Ok(made)
}
