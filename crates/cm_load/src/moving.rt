// Words through rings, with a thread for each end of a ring.
ghost use Rattle.std.specs.Prelude.{◌≡◌, ◌<◌, ◌≤◌, length, true, IfOk};
ghost use Rattle.cm_ring_core.specs.Lawful.{first_writer};
ghost use Rattle.cm_client.specs.Streamed.{EndsTruly};
ghost use Rattle.cm_load.specs.Coming.{HasCome, IsFresh, came_at, came_by_four, came_by_two, offset_rule};
ghost use Rattle.cm_load.specs.Words.{words_at};
ghost use Rattle.cm_sample.specs.Rule.{IsRule};

use crate::reading::{Came, compare_all};
use crate::words::Stretch;
use cm_base::transfer::NoMemory;
use cm_board::board::Munge;
use cm_client::client::{GaveUp, give_up};
use cm_client::feeding::feed;
use cm_client::munging::munge_work;
use cm_client::workers::{AllMunged, TrueEnd, Worker, with_worker};
use cm_ring::munger::Munger;
use cm_ring::open::open;
use cm_ring::reader::Reader;
use cm_ring::writer::{Closed, Writer};
use cm_sample::planned::Planned;
use cm_sample::rule::{MungeItem, MungeRule};
use std::alloc::Global;
use std::sync::Wait;
use std::thread::{Threads, join};

// The munge of all words: by an offset.
fn offset_rule(alloc: Global, maxdata: u32) -> Result<MungeRule, NoMemory>
    ensures { IfOk result (λ r. IsRule r × (r ≡ offset_rule maxdata)) }
{
    let item = MungeItem {
        kind: Munge::Offset,
        maxdata,
    };
    Ok(MungeRule {
        items: vec![in alloc; item]?,
        out: false,
        raw: false,
    })
}

// Those of the words that are given at places.
fn words_of<'a>(words: &'a [u32], places: Stretch) -> &'a [u32]
    ensures words { result.now ≡ words_at places words.now }
    ensures few { length result.now ≤ 4294967295 }
{
    let first = words.len().min(places.first as usize);
    let rest = &words[first..];
    let count = rest.len().min(places.count as usize);
    &rest[..count]
}

/// Moves the words at places through a new paced ring, and reports what came.
pub fn move_words<R: Threads + Wait + Sync>(
    rt: &R,
    alloc: Global,
    words: &[u32],
    places: Stretch,
    size: u32,
    base: u32,
    maxdata: u32,
) -> Result<Came, NoMemory>
    requires size { (0 < size) × (size ≤ 1048576) }
    ensures { IfOk result (λ c. c ≡ came_at maxdata places words.now) }
{
    let rule = offset_rule(alloc, maxdata)?;
    let moved = words_of(words, places);
    let (writer, munger, reader) = open(alloc, size, rule, true, base, moved)?;
    Ok(stream(rt, writer, munger, reader, moved, places.first, maxdata)?)
}

// The writer's thread beside the two others.
fn stream<R: Threads + Wait + Sync, P: Planned + Send + Sync>(
    rt: &R,
    writer: Writer<P>,
    munger: Munger<P>,
    reader: Reader<P>,
    words: &[u32],
    first: u32,
    maxdata: u32,
) -> Result<Came, GaveUp<P>>
    requires writer { (writer.part ≡ first_writer) × (writer.ring.samples ≡ words.now) × (writer.ring.paced ≡ true) }
    requires reader { IsFresh reader }
    ensures { IfOk result (λ c. HasCome reader.ring first maxdata c) }
{
    let (_, came) = with_worker(
        rt,
        TrueEnd,
        move || -> Closed<P>
            requires { (writer.part ≡ first_writer) × (writer.ring.samples ≡ words.now) × (writer.ring.paced ≡ true) }
            ensures { EndsTruly result }
        { feed(rt, writer, words) },
        move |feeding| -> Result<Came, GaveUp<P>>
            requires { IsFresh reader }
            ensures { IfOk result (λ c. HasCome reader.ring first maxdata c) }
        { read_beside(rt, munger, reader, feeding, first, maxdata) },
    );
    came
}

// The munger's thread beside the reader's, which gives up where a thread couldn't be made.
fn read_beside<R: Threads + Wait + Sync, P: Planned + Send + Sync>(
    rt: &R,
    munger: Munger<P>,
    reader: Reader<P>,
    other: Worker,
    first: u32,
    maxdata: u32,
) -> Result<Came, GaveUp<P>>
    requires { IsFresh reader }
    ensures come { IfOk result (λ c. HasCome reader.ring first maxdata c) }
    ensures started { IfOk result (λ _. other ≡ Worker.Started) }
{
    if other == Worker::Refused {
        return Err(give_up(reader));
    }
    let (_, came) = with_worker(
        rt,
        AllMunged,
        move || munge_work(rt, munger),
        move |munging| -> Result<Came, GaveUp<P>>
            requires { IsFresh reader }
            ensures { IfOk result (λ c. HasCome reader.ring first maxdata c) × IfOk result (λ _. munging ≡ Worker.Started) }
        {
            if munging == Worker::Refused {
                return Err(give_up(reader));
            }
            Ok(compare_all(rt, reader, first, maxdata))
        },
    );
    came
}

// The rings of which there are four at once.
const SIZE: u32 = 256;

const BASE: u32 = 4_294_967_290;

// Two rings at once, with half of the places each.
fn move_by_two<R: Threads + Wait + Sync>(
    rt: &R,
    alloc: Global,
    words: &[u32],
    places: Stretch,
    maxdata: u32,
) -> Result<Came, NoMemory>
    ensures { IfOk result (λ c. c ≡ came_by_two maxdata places words.now) }
{
    let (front, back) = places.halves();
    let (one, other) = join(
        rt,
        move || -> Result<Came, NoMemory>
            ensures { IfOk result (λ c. c ≡ came_at maxdata front words.entry.now) }
        { move_words(rt, alloc, words, front, SIZE, BASE, maxdata) },
        move || -> Result<Came, NoMemory>
            ensures { IfOk result (λ c. c ≡ came_at maxdata back words.entry.now) }
        { move_words(rt, alloc, words, back, SIZE, BASE, maxdata) },
    );
    Ok(one?.and(other?))
}

/// Moves the words at places through four paced rings at once, a quarter through each.
pub fn move_by_four<R: Threads + Wait + Sync>(
    rt: &R,
    alloc: Global,
    words: &[u32],
    places: Stretch,
    maxdata: u32,
) -> Result<Came, NoMemory>
    ensures { IfOk result (λ c. c ≡ came_by_four maxdata places words.now) }
{
    let (front, back) = places.halves();
    let (one, other) = join(
        rt,
        move || -> Result<Came, NoMemory>
            ensures { IfOk result (λ c. c ≡ came_by_two maxdata front words.entry.now) }
        { move_by_two(rt, alloc, words, front, maxdata) },
        move || -> Result<Came, NoMemory>
            ensures { IfOk result (λ c. c ≡ came_by_two maxdata back words.entry.now) }
        { move_by_two(rt, alloc, words, back, maxdata) },
    );
    Ok(one?.and(other?))
}
