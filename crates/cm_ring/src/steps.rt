// Each kind of step, made by one seat on one word of the table. Each is one atomic load, store or
// exchange, and all are sequentially consistent.
ghost use Rattle.std.specs.Prelude.{◌≡◌, ◌+◌, ◌<◌, ◌≤◌, Option, Some, None};
ghost use Rattle.cm_ring_core.specs.declared.view.WriterPart.{WriterPart};
ghost use Rattle.cm_ring_core.specs.declared.view.MungerPart.{MungerPart};
ghost use Rattle.cm_ring_core.specs.declared.view.ReaderPart.{ReaderPart};
ghost use Rattle.cm_ring_core.specs.Kinds.{SeesRead, MayPut, Puts, MayPublish, Publishes, MayMunge, Munges, MayShow, Shows, SeesMunged, ReadsCell, TakesCell, MayRelease, Releases, MayEnd, EndsWith, Finds, MungerFinds, Asks, SeesStop, SeesWritten, without_reader, only_reader, without_munger, only_munger};
ghost use Rattle.cm_ring.specs.Seated.{IsSeatOf, IsSameSeat};

use atomic_table::{Seat, Shared, Table};
use cm_ring_core::kinds::{
    AskStop, LoadCell, LoadEnd, LoadMunged, LoadRawCell, LoadRead, LoadStop, LoadWritten,
    MungeCell, MungerLoadEnd, PublishMunged, PublishRead, PublishWritten, SplitMunger, SplitReader,
    StoreEnd, StoreSample,
};
use cm_ring_core::rule::{OpenedWith, RingRule};
use cm_ring_core::view::View;
use cm_sample::planned::Planned;
use std::alloc::Global;

/// The word of the released count.
pub const READ: usize = 0;

/// The word of the munged count.
pub const MUNGED: usize = 1;

/// The word of the written count.
pub const WRITTEN: usize = 2;

const END: usize = 3;

const STOP: usize = 4;

/// The word of the first cell.
pub const FIRST_CELL: usize = 5;

/// The table of a ring.
pub type RingTable<P> = Table<(), View, OpenedWith<P>, RingRule<P>, Global>;

/// The words of a ring.
pub type RingWords<P> = Shared<(), View, OpenedWith<P>, RingRule<P>>;

/// The seat of an end.
pub type RingSeat = Seat<(), View>;

/// The writer's load of the released count. A writer that hasn't ended may load it at any time.
pub fn load_read<P: Planned>(table: &RingWords<P>, seat: &mut RingSeat) -> u64
    requires of { IsSeatOf P.samples table.now seat.old }
    requires may { (w : WriterPart) × (seat.old.me.0.writer ≡ Some w) × (w.closed ≡ None) }
    ensures same { IsSameSeat seat.old seat.new }
    ensures gives { SeesRead seat.old.me.0 result seat.new.me.0 }
{
    table.load::<LoadRead>(seat, READ)
}

/// The reader's load of the munged count. It may be made at any time.
pub fn load_munged<P: Planned>(table: &RingWords<P>, seat: &mut RingSeat) -> u64
    requires of { IsSeatOf P.samples table.now seat.old }
    requires may { (r : ReaderPart) × (seat.old.me.0.reader ≡ Some r) }
    ensures same { IsSameSeat seat.old seat.new }
    ensures gives { SeesMunged seat.old.me.0 result seat.new.me.0 }
{
    table.load::<LoadMunged>(seat, MUNGED)
}

/// The munger's load of the written count. It may be made at any time.
pub fn load_written<P: Planned>(table: &RingWords<P>, seat: &mut RingSeat) -> u64
    requires of { IsSeatOf P.samples table.now seat.old }
    requires may { (m : MungerPart) × (seat.old.me.0.munger ≡ Some m) }
    ensures same { IsSameSeat seat.old seat.new }
    ensures gives { SeesWritten seat.old.me.0 result seat.new.me.0 }
{
    table.load::<LoadWritten>(seat, WRITTEN)
}

/// The reader's load of the end. It may be made at any time.
pub fn load_end<P: Planned>(table: &RingWords<P>, seat: &mut RingSeat) -> u64
    requires of { IsSeatOf P.samples table.now seat.old }
    requires may { (r : ReaderPart) × (seat.old.me.0.reader ≡ Some r) }
    ensures same { IsSameSeat seat.old seat.new }
    ensures gives { Finds seat.old.me.0 result seat.new.me.0 }
{
    table.load::<LoadEnd>(seat, END)
}

/// The munger's load of the end. It may be made at any time.
pub fn munger_load_end<P: Planned>(table: &RingWords<P>, seat: &mut RingSeat) -> u64
    requires of { IsSeatOf P.samples table.now seat.old }
    requires may { (m : MungerPart) × (seat.old.me.0.munger ≡ Some m) }
    ensures same { IsSameSeat seat.old seat.new }
    ensures gives { MungerFinds seat.old.me.0 result seat.new.me.0 }
{
    table.load::<MungerLoadEnd>(seat, END)
}

/// The writer's load of the stop. A writer that hasn't ended may load it at any time.
pub fn load_stop<P: Planned>(table: &RingWords<P>, seat: &mut RingSeat) -> u64
    requires of { IsSeatOf P.samples table.now seat.old }
    requires may { (w : WriterPart) × (seat.old.me.0.writer ≡ Some w) × (w.closed ≡ None) }
    ensures same { IsSameSeat seat.old seat.new }
    ensures gives { SeesStop seat.old.me.0 result seat.new.me.0 }
{
    table.load::<LoadStop>(seat, STOP)
}

/// The reader's load of a cell. Any cell may be loaded; the load says something of a place that the
/// reader knows and hasn't released.
pub fn load_cell<P: Planned>(table: &RingWords<P>, seat: &mut RingSeat, cell: usize) -> u64
    requires of { IsSeatOf P.samples table.now seat.old }
    requires may { cell < table.now.table_id.words }
    ensures same { IsSameSeat seat.old seat.new }
    ensures gives { ReadsCell seat.old.me.0 cell result seat.new.me.0 }
{
    table.load::<LoadCell>(seat, cell)
}

/// The munger's load of a cell. Any cell may be loaded; the load says something of the next place
/// to munge.
pub fn load_raw_cell<P: Planned>(table: &RingWords<P>, seat: &mut RingSeat, cell: usize) -> u64
    requires of { IsSeatOf P.samples table.now seat.old }
    requires may { cell < table.now.table_id.words }
    ensures same { IsSameSeat seat.old seat.new }
    ensures gives { TakesCell seat.old.me.0 cell result seat.new.me.0 }
{
    table.load::<LoadRawCell>(seat, cell)
}

/// The writer's store of the written count. It may store the count of all that it put.
pub fn publish_written<P: Planned>(table: &RingWords<P>, seat: &mut RingSeat, count: u64)
    requires of { IsSeatOf P.samples table.now seat.old }
    requires may { MayPublish seat.old.me.0 count }
    ensures same { IsSameSeat seat.old seat.new }
    ensures gives { Publishes seat.old.me.0 seat.new.me.0 }
{
    table.store::<PublishWritten>(seat, WRITTEN, count);
}

/// The munger's store of the munged count. It may store the count of all that it munged.
pub fn publish_munged<P: Planned>(table: &RingWords<P>, seat: &mut RingSeat, count: u64)
    requires of { IsSeatOf P.samples table.now seat.old }
    requires may { MayShow seat.old.me.0 count }
    ensures same { IsSameSeat seat.old seat.new }
    ensures gives { Shows seat.old.me.0 seat.new.me.0 }
{
    table.store::<PublishMunged>(seat, MUNGED, count);
}

/// The reader's store of the released count. It may store that of a place up to what it knows.
pub fn publish_read<P: Planned>(table: &RingWords<P>, seat: &mut RingSeat, count: u64)
    requires of { IsSeatOf P.samples table.now seat.old }
    requires may { MayRelease seat.old.me.0 count }
    ensures same { IsSameSeat seat.old seat.new }
    ensures gives { Releases seat.old.me.0 count seat.new.me.0 }
{
    table.store::<PublishRead>(seat, READ, count);
}

/// The writer's store of its end. It may store one end, of a kind that is true of what it knows.
pub fn store_end<P: Planned>(table: &RingWords<P>, seat: &mut RingSeat, word: u64)
    requires of { IsSeatOf P.samples table.now seat.old }
    requires may { MayEnd seat.old.me.0 word }
    ensures same { IsSameSeat seat.old seat.new }
    ensures gives { EndsWith seat.old.me.0 word seat.new.me.0 }
{
    table.store::<StoreEnd>(seat, END, word);
}

/// The reader's store of the stop. It may be made at any time.
pub fn ask_stop<P: Planned>(table: &RingWords<P>, seat: &mut RingSeat)
    requires of { IsSeatOf P.samples table.now seat.old }
    requires may { (r : ReaderPart) × (seat.old.me.0.reader ≡ Some r) }
    ensures same { IsSameSeat seat.old seat.new }
    ensures gives { Asks seat.old.me.0 seat.new.me.0 }
{
    table.store::<AskStop>(seat, STOP, 1);
}

/// The writer's store of a sample into its cell. It may store the plan's next word, where there is
/// room by its last look.
pub fn store_sample<P: Planned>(table: &RingWords<P>, seat: &mut RingSeat, cell: usize, word: u64)
    requires of { IsSeatOf P.samples table.now seat.old }
    requires may { MayPut seat.old.me.0 cell word }
    ensures same { IsSameSeat seat.old seat.new }
    ensures gives { Puts seat.old.me.0 seat.new.me.0 }
{
    table.store::<StoreSample>(seat, cell, word);
}

/// The munger's exchange of a raw word for its munged word. It may exchange that of the next
/// published place.
pub fn munge_cell<P: Planned>(
    table: &RingWords<P>,
    seat: &mut RingSeat,
    cell: usize,
    word: u64,
) -> u64
    requires of { IsSeatOf P.samples table.now seat.old }
    requires may { MayMunge seat.old.me.0 cell word }
    ensures same { IsSameSeat seat.old seat.new }
    ensures gives { Munges seat.old.me.0 result seat.new.me.0 }
{
    table.swap::<MungeCell>(seat, cell, word)
}

/// The split of the first seat: the reader's role goes to a new seat. It may be made while the seat has it.
pub fn split_reader<P: Planned>(table: &RingWords<P>, seat: &mut RingSeat) -> RingSeat
    requires of { IsSeatOf P.samples table.now seat.old }
    requires may { (r : ReaderPart) × (seat.old.me.0.reader ≡ Some r) }
    ensures same { IsSameSeat seat.old seat.new }
    ensures of { (result.table_id ≡ seat.old.table_id) × (result.me.0 ≡ only_reader seat.old.me.0) × (seat.new.me.0 ≡ without_reader seat.old.me.0) }
{
    table.split_seat::<SplitReader>(seat)
}

/// The split of the first seat: the munger's role goes to a new seat. It may be made while the seat has it.
pub fn split_munger<P: Planned>(table: &RingWords<P>, seat: &mut RingSeat) -> RingSeat
    requires of { IsSeatOf P.samples table.now seat.old }
    requires may { (m : MungerPart) × (seat.old.me.0.munger ≡ Some m) }
    ensures same { IsSameSeat seat.old seat.new }
    ensures of { (result.table_id ≡ seat.old.table_id) × (result.me.0 ≡ only_munger seat.old.me.0) × (seat.new.me.0 ≡ without_munger seat.old.me.0) }
{
    table.split_seat::<SplitMunger>(seat)
}
