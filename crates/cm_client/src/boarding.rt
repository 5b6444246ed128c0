// The board's worker.
ghost use Rattle.std.specs.Prelude.{◌≡◌, ◌+◌, ◌<◌, ◌≤◌, false, length, nat_eq, slice_index, MatchOption, Some, ℕ};
ghost use Rattle.cm_expand.specs.PlanView.{plan_words};
ghost use Rattle.cm_ring_core.specs.Lawful.{first_writer, MayEndAs};
ghost use Rattle.cm_ring.specs.Roles.{closed_as};
ghost use Rattle.cm_client.specs.Handing.{in_64_bits};
ghost use Rattle.cm_client.specs.Served.{EndsServing, HandsTo, HasServed};
ghost use Rattle.cm_client.specs.Streamed.{EndsTruly, HeedsStop};

use crate::handover::Handover;
use crate::waiting::Waiting;
use crate::words::{WordSource, Words};
use cm_base::gate::Gate;
use cm_expand::plan::Plan;
use cm_ring::writer::{Closed, Writer};
use cm_ring_core::view::EndKind;
use cm_sample::planned::Planned;
use crossbeam_utils::Backoff;
use std::sync::Wait;

// How many words a paced ring's writer puts before it publishes them.
const PIECE: u32 = 256;

/// Puts all words in order. Where the ring isn't paced each is published before the next one is tried;
/// else they are published in pieces, and before the writer waits. Where the ring is full it
/// ends with `Cancelled` if a look found the stop asked for, and else waits if the ring is paced, and
/// ends with `Overrun` if it isn't. After all words it ends with `Done`. It waits in the way that the
/// caller chooses, hands on all that it has put by that, and gives it back.
pub fn put_words<R: Wait + Sync, P: Planned, W: Words, S: Waiting, G: Gate>(
    rt: &R,
    mut writer: Writer<P>,
    mut words: W,
    paced: bool,
    waiting: S,
    gate: &G,
    who: u32,
) -> (Closed<P>, S)
    requires fresh { writer.part ≡ first_writer }
    requires plan { (writer.ring.samples ≡ W.all words) × (W.place words ≡ 0) }
    requires paced { writer.ring.paced ≡ paced }
    ensures of { (result.0.table ≡ writer.table) × (result.0.ring ≡ writer.ring) }
    ensures end { EndsTruly result.0 }
    ensures heeds { HeedsStop result.0 }
    ensures served { HasServed S.has_handed_on S.has_waited S.has_ended 0 result.0.end.count waiting result.1 }
{
    let mut handover = Handover::new(waiting, 0);
    let size = writer.size();
    let most = if paced { PIECE } else { 1 };
    // How many words are put before the next place that is a multiple of the ring's size.
    let mut left = 0;
    // How many were put and aren't published yet.
    let mut fresh = 0;
    for _ in rt.forever() {
        let Some(word) = words.next_word() else {
            break;
        };
        if left == 0 {
            gate.pass(who, 1);
        }
        prove!(paced || fresh == 0);
        if writer.put(word).is_ok() {
            words.step();
            left = if left == 0 { size - 1 } else { left - 1 };
            fresh += 1;
            if fresh >= most || left == 0 {
                publish(&mut writer, &mut handover, fresh);
                fresh = 0;
            }
        } else {
            publish(&mut writer, &mut handover, fresh);
            fresh = 0;
            gate.pass(who, 2);
            if writer.stop_asked() {
                return end(writer, handover, EndKind::Cancelled);
            }
            if !paced {
                return end(writer, handover, EndKind::Overrun);
            }
            wait_for_room(rt, &writer, &mut handover);
        }
    }
    publish(&mut writer, &mut handover, fresh);
    end(writer, handover, EndKind::Done)
}

// Publishes what was put, and hands it on.
fn publish<P: Planned, S: Waiting>(writer: &mut Writer<P>, handover: &mut Handover<S>, fresh: u32)
    requires handed { handover.old.handed ≡ in_64_bits writer.old.part.written }
    requires waited { handover.old.idle ≡ false }
    requires fresh { writer.old.part.written + fresh ≡ writer.old.part.next }
    ensures writer { writer.new ≡ record writer.old { part = record writer.old.part { written = writer.old.part.next } } }
    ensures handed { handover.new.handed ≡ in_64_bits writer.new.part.written }
    ensures idle { handover.new.idle ≡ nat_eq fresh 0 }
    ensures way { HandsTo S.has_handed_on S.has_waited writer.old.part.written writer.new.part.written handover.old.way handover.new.way }
{
    if fresh > 0 {
        writer.publish();
    }
    handover.hand_on(writer, fresh);
}

// Waits for room.
fn wait_for_room<R: Wait, P: Planned, S: Waiting>(
    rt: &R,
    writer: &Writer<P>,
    handover: &mut Handover<S>,
)
    requires published { writer.now.part.written ≡ writer.now.part.next }
    requires handed { handover.old.handed ≡ in_64_bits writer.now.part.written }
    ensures handed { handover.new.handed ≡ handover.old.handed }
    ensures idle { handover.new.idle ≡ false }
    ensures way { (to : ℕ) → HandsTo S.has_handed_on S.has_waited to to handover.old.way handover.new.way }
{
    handover.wait(rt, writer);
}

// Ends, and lets the next worker know.
fn end<P: Planned, S: Waiting>(
    writer: Writer<P>,
    handover: Handover<S>,
    kind: EndKind,
) -> (Closed<P>, S)
    requires published { writer.part.written ≡ writer.part.next }
    requires kind { MayEndAs writer.ring writer.part.at writer.part.freed writer.part.saw_stop kind writer.part.written }
    ensures closed { result.0 ≡ closed_as writer kind }
    ensures served { EndsServing S.has_handed_on S.has_waited S.has_ended writer.part.written result.0.end.count handover.way result.1 }
{
    let closed = writer.end(kind);
    let way = handover.end(&closed);
    (closed, way)
}

/// Puts the expansion of a plan into its ring, as `put_words` does.
pub fn board_work<'a, R: Wait + Sync, G: Gate>(
    rt: &R,
    writer: Writer<Plan<'a>>,
    plan: Plan<'a>,
    paced: bool,
    gate: &G,
    who: u32,
) -> Closed<Plan<'a>>
    requires fresh { writer.part ≡ first_writer }
    requires plan { writer.ring.samples ≡ plan_words plan }
    requires paced { writer.ring.paced ≡ paced }
    ensures of { (result.table ≡ writer.entry.table) × (result.ring ≡ writer.entry.ring) }
    ensures end { EndsTruly result }
    ensures heeds { HeedsStop result }
{
    let words = WordSource::new(plan);
    let (closed, _) = put_words(rt, writer, words, paced, Backoff::new(), gate, who);
    closed
}
