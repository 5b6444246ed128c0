// What a ring gives when one thread makes the calls of its three ends in turn.
ghost use Rattle.std.specs.Prelude.{◌≡◌, false};
ghost use Rattle.cm_ring_core.specs.Lawful.{first_writer};

use crate::rule::rule_of;
use cm_base::transfer::NoMemory;
use cm_board::board::Munge;
use cm_ring::open::open;
use cm_ring::reader::Reader;
use cm_ring::writer::Writer;
use cm_ring_core::view::{End, EndKind};
use std::alloc::{AllocError, Global};
use std::test::Fail;

// Puts so many words of a plan, up to the first that finds no room: the end is `Overrun` then. Else it is `Cancelled`,
// where the stop is asked for.
fn put_and_end(mut writer: Writer<&[u32]>, plan: &[u32], count: usize)
    requires fresh { writer.part ≡ first_writer }
    requires ring { (writer.ring.samples ≡ plan.now) × (writer.ring.paced ≡ false) }
{
    for i in 0..plan.len().min(count) {
        if writer.put(plan[i]).is_err() {
            writer.publish();
            writer.end(EndKind::Overrun);
            return;
        }
    }
    writer.publish();
    if writer.stop_asked() {
        writer.end(EndKind::Cancelled);
    }
}

// Reads all samples that are munged: first their number, and then each.
fn read_piece(reader: &mut Reader<&[u32]>, told: &mut Vec<u32>) -> Result<(), AllocError> {
    let count = reader.map(9);
    told.push(count)?;
    for i in 0..count {
        told.push(reader.word(i))?;
    }
    reader.release(count);
    Ok(())
}

// What is read of a ring of four cells where so many words are put and the stop is asked for, and its end. Two samples
// are munged before the first piece is read.
fn read_after(
    alloc: Global,
    plan: &[u32; 6],
    count: usize,
) -> Result<(Vec<u32>, Option<End>), NoMemory> {
    let rule = rule_of(alloc, Munge::Offset)?;
    let mut told = Vec::new(alloc);
    let (writer, mut munger, mut reader) = open(
        alloc,
        4,
        rule,
        false,
        4294967294,
        plan.as_slice(),
    )?;
    reader.ask_stop();
    put_and_end(writer, plan, count);
    munger.munge_some(2);
    read_piece(&mut reader, &mut told)?;
    munger.munge_some(9);
    read_piece(&mut reader, &mut told)?;
    Ok((told, reader.ended()))
}

// A stop ends the stream after what was put, and a sample that finds no room after what was put before it. The reader sees
// the samples that are munged beside raw ones, also where the shared counts wrap.
#[test]
fn samples_are_read_up_to_the_end(rt: HostRuntime) -> Result<(), Fail> {
    let rows: [(usize, EndKind, u64, &[u32]); 4] = [
        (0, EndKind::Cancelled, 0, &[0, 0]),
        (3, EndKind::Cancelled, 3, &[2, 128, 0, 1, 127]),
        (4, EndKind::Cancelled, 4, &[2, 128, 0, 2, 127, 129]),
        (6, EndKind::Overrun, 4, &[2, 128, 0, 2, 127, 129]),
    ];
    for (put, kind, count, wanted) in rows {
        let (told, end) = read_after(rt.alloc(), &[0, 128, 255, 1, 2, 3], put)?;
        assert!(rt; told.as_slice() == wanted && end == Some(End { kind, count }));
    }
    Ok(())
}
