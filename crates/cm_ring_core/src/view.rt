// What the seats of a shared ring know.
use cm_sample::rule::MungeRule;
use std::collections::LinkedList;

/// Why a writer ended.
#[derive(Clone, Copy, PartialEq, Eq, Debug, Drop)]
pub enum EndKind {
    /// All samples of the plan were written.
    Done,
    /// A sample found no room.
    Overrun,
    /// The reader asked for a stop.
    Cancelled,
}

/// The end of a stream: why it ended, and after how many samples.
#[derive(Clone, Copy, PartialEq, Eq, Debug, Drop)]
pub struct End {
    pub kind: EndKind,
    /// The number of samples that were written.
    pub count: u64,
}

/// What is fixed when a ring is opened. It is for contracts alone, and no value of it is made.
pub struct RingConstants {
    /// The number of cells.
    pub size: u64,
    pub rule: MungeRule,
    /// The words that the writer puts, in their order.
    pub samples: LinkedList<u64>,
    /// Whether the writer waits for room instead of ending with an overrun.
    pub paced: bool,
    /// The 32-bit number at which the shared counts start.
    pub base: u64,
}

/// What the writer knows. It is for contracts alone.
pub struct WriterPart {
    /// The place of the next sample.
    pub next: u64,
    /// How many samples are published.
    pub written: u64,
    /// How many samples were released, by the last look.
    pub freed: u64,
    /// The place of the next sample at that look.
    pub at: u64,
    /// How often it loaded the released count.
    pub read_looks: u64,
    /// How often it loaded the stop.
    pub stop_looks: u64,
    pub saw_stop: bool,
    /// The end that it stored.
    pub closed: Option<End>,
}

/// What the munger knows. It is for contracts alone.
pub struct MungerPart {
    /// How many munged samples the reader may see.
    pub munged: u64,
    /// How many samples have their munged word in their cell.
    pub exchanged: u64,
    /// How many samples are published, by the last look.
    pub avail: u64,
    /// How often it loaded the written count.
    pub written_looks: u64,
    /// How often it loaded the end.
    pub end_looks: u64,
    /// The end that it found.
    pub found: Option<End>,
}

/// What the reader knows. It is for contracts alone.
pub struct ReaderPart {
    /// How many samples it has released.
    pub released: u64,
    /// How many samples are munged, by the last look.
    pub known: u64,
    /// Whether it has asked for the stop.
    pub asked: bool,
    /// How often it loaded the munged count.
    pub munged_looks: u64,
    /// How often it loaded the end.
    pub end_looks: u64,
    /// The end that it found.
    pub found: Option<End>,
}

/// What a seat knows: the constants, and the fields of each role that it has. It is for contracts
/// alone.
pub struct View {
    pub ring: RingConstants,
    pub writer: Option<WriterPart>,
    pub munger: Option<MungerPart>,
    pub reader: Option<ReaderPart>,
}
