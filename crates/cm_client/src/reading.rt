// Reads to the end of a ring.
ghost use Rattle.std.specs.Prelude.{◌≡◌, ◌+◌, ◌-◌, ◌<◌, ◌≤◌, ◌++◌, ◌≢◌, [], min, length, drop, take, true, false, Some, None};
ghost use Rattle.std.specs.Prelude.{IfOk, IfSome, IsTrue, IsFalse, OnErr, MatchOption, ℕ, ⊤};
ghost use Rattle.cm_ring.specs.Samples.{first_munged, piece};
ghost use Rattle.cm_base.specs.UpTo.{up_to};
ghost use Rattle.cm_client.specs.Handing.{in_64_bits};
ghost use Rattle.cm_client.specs.Progress.{Accepts, HasRead, HasAll, IsReadToEnd, IsSameRing, Stops, with_found, with_stop};
ghost use Rattle.cm_client.specs.Served.{HandsMore, HandsRead, HandsSome, HasServed};
ghost use Rattle.cm_ring_core.specs.Lawful.{IsFoundEnd};

use crate::copying::copy_read;
use crate::handover::Handover;
use crate::mapping::MapReader;
use crate::waiting::Waiting;
use cm_base::gate::Gate;
use cm_base::transfer::NoMemory;
use cm_ring::reader::Reader;
use cm_ring_core::view::End;
use cm_sample::consuming::Consumer;
use cm_sample::planned::Planned;
use crossbeam_utils::Backoff;
use std::alloc::Global;
use std::sync::Wait;

const PIECE: usize = 64;

// Reads a piece by copying, by way of `room`.
fn copy_piece<P: Planned, C: Consumer>(
    reader: &mut Reader<P>,
    consumer: &mut C,
    room: &mut [u32],
) -> Result<u32, NoMemory>
    requires all { HasAll (C.count consumer.old) (C.made consumer.old) (C.makes consumer.old) (C.accepts consumer.old) reader.old }
    requires some { 0 < length room.old }
    requires small { length room.old ≤ 64 }
    ensures all { IfOk result (λ _. HasAll (C.count consumer.new) (C.made consumer.new) (C.makes consumer.new) (C.accepts consumer.new) reader.new) }
    ensures read { IfOk result (λ count. HasRead reader.old reader.new count) }
    ensures few { IfOk result (λ count. count ≤ length room.old) }
    ensures makes { C.makes consumer.new ≡ C.makes consumer.old }
    ensures of { IsSameRing reader.old reader.new }
{
    let count = copy_read(reader, room);
    if count == 0 {
        return Ok(0);
    }
    consumer.consume(&room[..count])?;
    Ok(count as u32)
}

// Reads a piece in place.
fn map_piece<P: Planned, C: Consumer, G: Gate>(
    reader: &mut Reader<P>,
    consumer: &mut C,
    room: &mut [u32],
    gate: &G,
    who: u32,
) -> Result<u32, NoMemory>
    requires all { HasAll (C.count consumer.old) (C.made consumer.old) (C.makes consumer.old) (C.accepts consumer.old) reader.old }
    requires small { length room.old ≤ 64 }
    ensures all { IfOk result (λ _. HasAll (C.count consumer.new) (C.made consumer.new) (C.makes consumer.new) (C.accepts consumer.new) reader.new) }
    ensures read { IfOk result (λ count. HasRead reader.old reader.new count) }
    ensures few { IfOk result (λ count. count ≤ length room.old) }
    ensures makes { C.makes consumer.new ≡ C.makes consumer.old }
    ensures of { IsSameRing reader.old reader.new }
{
    let mut map = MapReader::new(reader);
    hand_over(&mut map, consumer, room, gate, who)
}

// Maps a piece, hands its words over by way of `room`, and releases it.
fn hand_over<P: Planned, C: Consumer, G: Gate>(
    map: &mut MapReader<'_, P>,
    consumer: &mut C,
    room: &mut [u32],
    gate: &G,
    who: u32,
) -> Result<u32, NoMemory>
    requires all { HasAll (C.count consumer.old) (C.made consumer.old) (C.makes consumer.old) (C.accepts consumer.old) map.old.reader.now }
    requires small { length room.old ≤ 64 }
    ensures same_reader { map.new.reader.ghost_name ≡ map.old.reader.ghost_name }
    ensures all { IfOk result (λ _. HasAll (C.count consumer.new) (C.made consumer.new) (C.makes consumer.new) (C.accepts consumer.new) map.new.reader.now) }
    ensures read { IfOk result (λ count. HasRead map.old.reader.now map.new.reader.now count) }
    ensures few { IfOk result (λ count. count ≤ length room.old) }
    ensures makes { C.makes consumer.new ≡ C.makes consumer.old }
    ensures of { IsSameRing map.old.reader.now map.new.reader.now }
{
    let count = map.contents(room.len() as u32);
    if count == 0 {
        return Ok(0);
    }
    map.copy_words(room, count);
    consumer.consume(&room[..count as usize])?;
    gate.pass(who, 3);
    map.release(count);
    Ok(count)
}

fn read_piece<P: Planned, C: Consumer, G: Gate>(
    reader: &mut Reader<P>,
    consumer: &mut C,
    most: u32,
    by_map: bool,
    gate: &G,
    who: u32,
) -> Result<u32, NoMemory>
    requires all { HasAll (C.count consumer.old) (C.made consumer.old) (C.makes consumer.old) (C.accepts consumer.old) reader.old }
    requires some { 0 < most }
    ensures all { IfOk result (λ _. HasAll (C.count consumer.new) (C.made consumer.new) (C.makes consumer.new) (C.accepts consumer.new) reader.new) }
    ensures read { IfOk result (λ count. HasRead reader.old reader.new count) }
    ensures few { IfOk result (λ count. count ≤ most) }
    ensures makes { C.makes consumer.new ≡ C.makes consumer.old }
    ensures of { IsSameRing reader.old reader.new }
{
    let mut room = [0u32; PIECE];
    let size = (most as usize).min(PIECE);
    if by_map {
        map_piece(reader, consumer, &mut room[..size], gate, who)
    } else {
        gate.pass(who, 3);
        copy_piece(reader, consumer, &mut room[..size])
    }
}

// How many samples are read next: a piece, or what is left.
fn next_piece(chunk: u32, most: Option<u64>, count: u64) -> u32
    requires left { MatchOption most ⊤ (λ m. count < m) }
    requires chunk { 1 ≤ chunk }
    ensures some { 1 ≤ result }
    ensures chunk { result ≤ chunk }
    ensures left { IfSome most (λ m. count + result ≤ m) }
{
    match most {
        None => chunk,
        Some(m) => (m - count).min(chunk as u64) as u32,
    }
}

// Whether so many samples are all that are taken.
fn is_enough(most: Option<u64>, count: u64) -> bool
    ensures more { IfSome most (λ m. IsFalse result → count ≢ m) }
    ensures enough { IsTrue result → most ≡ Some count }
{
    match most {
        None => false,
        Some(m) => m == count,
    }
}

// Reads one piece more, and gives how many samples it has and how many it could have.
fn read_more<P: Planned, C: Consumer, G: Gate>(
    reader: &mut Reader<P>,
    consumer: &mut C,
    chunk: u32,
    by_map: bool,
    most: Option<u64>,
    gate: &G,
    who: u32,
) -> Result<(u32, u32), NoMemory>
    requires chunk { 1 ≤ chunk }
    requires all { HasAll (C.count consumer.old) (C.made consumer.old) (C.makes consumer.old) (C.accepts consumer.old) reader.old }
    requires most { MatchOption most ⊤ (λ m. reader.old.part.released < m) }
    ensures all { IfOk result (λ _. HasAll (C.count consumer.new) (C.made consumer.new) (C.makes consumer.new) (C.accepts consumer.new) reader.new) }
    ensures most { IfOk result (λ _. MatchOption most ⊤ (λ m. reader.new.part.released ≤ m)) }
    ensures asked { IfOk result (λ _. reader.new.part.asked ≡ reader.old.part.asked) }
    ensures read { IfOk result (λ t. reader.new.part.released ≡ reader.old.part.released + t.0) }
    ensures some { IfOk result (λ t. 1 ≤ t.1) }
    ensures makes { C.makes consumer.new ≡ C.makes consumer.old }
    ensures of { IsSameRing reader.old reader.new }
{
    let piece = next_piece(chunk, most, reader.released());
    let count = read_piece(reader, consumer, piece, by_map, gate, who)?;
    if count > 0 {
        gate.pass(who, 4);
    }
    Ok((count, piece))
}

// The end, where it is found and so many samples are all.
fn end_at<P: Planned>(reader: &mut Reader<P>, count: u64) -> Option<End>
    ensures same { reader.new ≡ with_found reader.old reader.new.part.found reader.new.part.end_looks }
    ensures looked { reader.new.part.end_looks ≡ reader.old.part.end_looks + 1 }
    ensures end { IfSome result (λ e. (reader.new.part.found ≡ Some e) × (e.count ≡ count) × IsFoundEnd reader.old.ring reader.old.part e.kind e.count) }
    ensures found { IfSome reader.new.part.found (λ e. e.count ≡ count → result ≡ Some e) }
{
    let end = reader.ended()?;
    if end.count == count { Some(end) } else { None }
}

// Hands samples on. After a piece that isn't full the client waits, so that the munger gets ahead of it.
fn after_piece<R: Wait, P: Planned, W: Waiting>(
    rt: &R,
    reader: &Reader<P>,
    handover: &mut Handover<W>,
    count: u32,
    piece: u32,
)
    requires shown { in_64_bits reader.now.part.released ≡ in_64_bits (handover.old.handed + count) }
    requires waited { handover.old.idle ≡ false }
    requires some { 1 ≤ piece }
    ensures handed { handover.new.handed ≡ in_64_bits reader.now.part.released }
    ensures waited { handover.new.idle ≡ false }
    ensures way { HandsMore W.has_handed_on W.has_waited count reader.now.part.released handover.old.way handover.new.way }
{
    handover.hand_on(reader, count);
    if count < piece {
        handover.wait(rt, reader);
    }
}

// Reads up to the end, or up to so many samples.
fn read_up_to<R: Wait + Sync, P: Planned, C: Consumer, W: Waiting, G: Gate>(
    rt: &R,
    reader: &mut Reader<P>,
    consumer: &mut C,
    handover: &mut Handover<W>,
    chunk: u32,
    by_map: bool,
    most: Option<u64>,
    gate: &G,
    who: u32,
) -> Result<Option<End>, NoMemory>
    requires chunk { 1 ≤ chunk }
    requires handed { handover.old.handed ≡ in_64_bits reader.old.part.released }
    requires waited { handover.old.idle ≡ false }
    requires all { HasAll (C.count consumer.old) (C.made consumer.old) (C.makes consumer.old) (C.accepts consumer.old) reader.old }
    requires most { MatchOption most ⊤ (λ m. reader.old.part.released ≤ m) }
    ensures all { IfOk result (λ _. HasAll (C.count consumer.new) (C.made consumer.new) (C.makes consumer.new) (C.accepts consumer.new) reader.new) }
    ensures stops { IfOk result (Stops reader.new most) }
    ensures asked { IfOk result (λ _. reader.new.part.asked ≡ reader.old.part.asked) }
    ensures makes { C.makes consumer.new ≡ C.makes consumer.old }
    ensures of { IsSameRing reader.old reader.new }
    ensures handed_on { IfOk result (λ _. HandsRead W.has_handed_on W.has_waited reader.old reader.new handover.old.way handover.new.way) }
    ensures way { OnErr result (HandsSome W.has_handed_on W.has_waited reader.old.part.released handover.old.way handover.new.way) }
{
    for _ in rt.forever() {
        let count = reader.released();
        if is_enough(most, count) {
            return Ok(None);
        }
        if let Some(end) = end_at(reader, count) {
            return Ok(Some(end));
        }
        let (count, piece) = read_more(reader, consumer, chunk, by_map, most, gate, who)?;
        after_piece(rt, reader, handover, count, piece);
    }
    unreachable!()
}

// Waits for the end, which was asked for.
fn wait_for_end<R: Wait + Sync, P: Planned>(rt: &R, reader: &mut Reader<P>) -> End
    requires { reader.old.part.asked ≡ true }
    ensures same { reader.new ≡ with_found reader.old (Some result) reader.new.part.end_looks }
    ensures above { reader.old.part.released ≤ result.count }
    ensures says { IsFoundEnd reader.old.ring reader.old.part result.kind result.count }
{
    let backoff = Backoff::new();
    for _ in rt.forever() {
        if let Some(end) = reader.ended() {
            return end;
        }
        backoff.snooze();
    }
    unreachable!()
}

// Asks for the stop, and wakes a writer that waits for room.
fn ask_stop<P: Planned, W: Waiting>(reader: &mut Reader<P>, handover: Handover<W>) -> W
    ensures asked { reader.new ≡ with_stop reader.old }
    ensures way { W.has_ended handover.way result }
{
    reader.ask_stop();
    handover.end(reader)
}

// Asks for the stop and waits for the end.
fn stop_and_wait<R: Wait + Sync, P: Planned, W: Waiting>(
    rt: &R,
    reader: &mut Reader<P>,
    handover: Handover<W>,
) -> (End, W)
    ensures same { reader.new ≡ with_found (with_stop reader.old) (Some result.0) reader.new.part.end_looks }
    ensures above { reader.old.part.released ≤ result.0.count }
    ensures says { IsFoundEnd reader.new.ring reader.new.part result.0.kind result.0.count }
    ensures way { W.has_ended handover.way result.1 }
{
    let way = ask_stop(reader, handover);
    (wait_for_end(rt, reader), way)
}

/// Reads samples in pieces of at most `chunk`, in place or by copying, up to the end's count or up to
/// `take` samples. After that many it asks for the stop and waits for the end. It gives the samples
/// and the end. Where memory runs out, it asks for the stop, so that a writer that waits for room ends.
pub fn read_to_end<R: Wait + Sync, P: Planned, G: Gate>(
    rt: &R,
    alloc: Global,
    reader: &mut Reader<P>,
    chunk: u32,
    by_map: bool,
    take: Option<u64>,
    gate: &G,
    who: u32,
) -> Result<(Vec<u32>, End), NoMemory>
    requires chunk { 1 ≤ chunk }
    requires fresh { (reader.old.part.released ≡ 0) × (reader.old.mapped ≡ 0) }
    ensures read { IfOk result (λ t. IsReadToEnd reader.old reader.new take t.0.items t.1) }
    ensures of { IsSameRing reader.old reader.new }
    ensures no_memory { OnErr result (reader.new.part.asked ≡ true) }
{
    let mut words = Vec::new(alloc);
    let waiting = Backoff::new();
    let (end, _) = consume_to_end(
        rt, reader, &mut words, waiting, chunk, by_map, take, gate, who,
    );
    Ok((words, end?))
}

/// Reads as `read_to_end` does, hands the samples to a consumer in place of keeping them, and waits for
/// the munger in the way that the caller chooses. It hands on all that it has released by that, and gives it back.
pub fn consume_to_end<R: Wait + Sync, P: Planned, C: Consumer, W: Waiting, G: Gate>(
    rt: &R,
    reader: &mut Reader<P>,
    consumer: &mut C,
    waiting: W,
    chunk: u32,
    by_map: bool,
    take: Option<u64>,
    gate: &G,
    who: u32,
) -> (Result<End, NoMemory>, W)
    requires chunk { 1 ≤ chunk }
    requires fresh { (reader.old.part.released ≡ 0) × (reader.old.mapped ≡ 0) }
    requires new { (C.count consumer.old ≡ 0) × (C.made consumer.old ≡ C.makes consumer.old []) }
    requires accepts { Accepts (C.accepts consumer.old) reader.old.ring }
    ensures read { IfOk result.0 (λ e. IsReadToEnd reader.old reader.new take (first_munged reader.old.ring (up_to e.count take)) e) }
    ensures made { IfOk result.0 (λ e. C.made consumer.new ≡ C.makes consumer.old (first_munged reader.old.ring (up_to e.count take))) }
    ensures makes { C.makes consumer.new ≡ C.makes consumer.old }
    ensures of { IsSameRing reader.old reader.new }
    ensures no_memory { OnErr result.0 (reader.new.part.asked ≡ true) }
    ensures served { IfOk result.0 (λ _. HasServed W.has_handed_on W.has_waited W.has_ended 0 reader.new.part.released waiting result.1) }
    ensures ended { OnErr result.0 ((to : ℕ) × HasServed W.has_handed_on W.has_waited W.has_ended 0 to waiting result.1) }
{
    let mut handover = Handover::new(waiting, reader.released());
    match read_up_to(
        rt,
        reader,
        consumer,
        &mut handover,
        chunk,
        by_map,
        take,
        gate,
        who,
    ) {
        Ok(Some(end)) => (Ok(end), handover.end(reader)),
        Ok(None) => {
            let (end, way) = stop_and_wait(rt, reader, handover);
            (Ok(end), way)
        }
        Err(_) => (Err(NoMemory), ask_stop(reader, handover)),
    }
}
