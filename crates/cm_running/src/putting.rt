// Words on their way out of a ring.
ghost use Rattle.std.specs.Prelude.{◌≡◌, ◌+◌, ◌-◌, ◌<◌, ◌≤◌, ◌^◌, ◌++◌, length, take, slice_index, OnOk};
ghost use Rattle.cm_text.specs.Outputs.{output_text, output_texts};
ghost use Rattle.cm_running.specs.Putting.{Moves, emptied, going, less, without};
ghost use Rattle.cm_running.specs.Running.{outputs};

use crate::handing::HandsOver;
use crate::pending::Pending;
use cm_base::transfer::NoMemory;
use cm_expand::conv::Conv;
use cm_ring_core::local::LocalRing;
use cm_text::output::put_output;

/// Puts the words out whose conversions have come by a time, one after the other, while there are
/// marked ones, and appends their lines. After want of memory as many conversions are gone as words.
pub fn put_due(
    text: &mut Vec<u8>,
    sub: u32,
    ring: &mut LocalRing,
    board: &mut Pending<'_>,
    time: u64,
) -> Result<(), NoMemory>
    requires unmapped { ring.old.ra ≡ ring.old.r }
    requires munged { ring.old.m ≡ ring.old.w }
    requires places { ring.old.w < 2 ^ 62 }
    requires held { ring.old.w - ring.old.r ≤ length ring.old.held }
    ensures moves { Moves ring.old ring.new board.old board.new }
    ensures ring { OnOk result (ring.new ≡ emptied ring.old board.old.conversions time) }
    ensures board { OnOk result (board.new ≡ without (going ring.old board.old.conversions time) board.old) }
    ensures text { OnOk result (text.new.items ≡ text.old.items ++ output_texts (outputs sub (take (going ring.old board.old.conversions time) board.old.conversions) ring.old.held)) }
{
    while ring.contents() > 0 {
        match board.next_by(time) {
            None => break,
            Some(conversion) => put_next(text, sub, &conversion, ring)?,
        }
    }
    Ok(())
}

// Puts the first word out.
fn put_next(
    text: &mut Vec<u8>,
    sub: u32,
    conversion: &Conv,
    ring: &mut LocalRing,
) -> Result<(), NoMemory>
    requires unmapped { ring.old.ra ≡ ring.old.r }
    requires some { ring.old.r < ring.old.m }
    ensures ring { ring.new ≡ less ring.old 1 }
    ensures text { OnOk result (text.new.items ≡ text.old.items ++ output_text (record { sub = sub; time = conversion.now.time; index = conversion.now.list_index; word = slice_index ring.old.held 0 })) }
{
    ring.read_alloc(1);
    let word = ring.word(0);
    ring.read_free(1);
    put_output(text, sub, conversion, word)
}
