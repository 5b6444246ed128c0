// The kinds of step on a shared ring. These types are for the proofs alone: each stands for what its
// step gives the seat that makes it.
ghost use Rattle.cm_ring_core.specs.Kinds.{sees_read, puts, publishes, munges, shows, sees_munged, reads_cell, takes_cell, releases, ends_with, finds, munger_finds, asks, sees_stop, sees_written, without_reader, only_reader, without_munger, only_munger};

use crate::view::View;
use atomic_table::{Play, Split};

/// The writer loads the released count.
pub struct LoadRead;

impl Play<(), View> for LoadRead {
    ghost then = { sees_read };
}

/// The writer stores a sample into its cell.
pub struct StoreSample;

impl Play<(), View> for StoreSample {
    ghost then = { puts };
}

/// The writer stores the written count.
pub struct PublishWritten;

impl Play<(), View> for PublishWritten {
    ghost then = { publishes };
}

/// The munger exchanges a raw word for its munged word.
pub struct MungeCell;

impl Play<(), View> for MungeCell {
    ghost then = { munges };
}

/// The munger stores the munged count.
pub struct PublishMunged;

impl Play<(), View> for PublishMunged {
    ghost then = { shows };
}

/// The reader loads the munged count.
pub struct LoadMunged;

impl Play<(), View> for LoadMunged {
    ghost then = { sees_munged };
}

/// The reader loads a cell.
pub struct LoadCell;

impl Play<(), View> for LoadCell {
    ghost then = { reads_cell };
}

/// The munger loads a cell.
pub struct LoadRawCell;

impl Play<(), View> for LoadRawCell {
    ghost then = { takes_cell };
}

/// The reader stores the released count.
pub struct PublishRead;

impl Play<(), View> for PublishRead {
    ghost then = { releases };
}

/// The writer stores its end.
pub struct StoreEnd;

impl Play<(), View> for StoreEnd {
    ghost then = { ends_with };
}

/// The reader loads the end.
pub struct LoadEnd;

impl Play<(), View> for LoadEnd {
    ghost then = { finds };
}

/// The munger loads the end.
pub struct MungerLoadEnd;

impl Play<(), View> for MungerLoadEnd {
    ghost then = { munger_finds };
}

/// The reader stores the stop.
pub struct AskStop;

impl Play<(), View> for AskStop {
    ghost then = { asks };
}

/// The writer loads the stop.
pub struct LoadStop;

impl Play<(), View> for LoadStop {
    ghost then = { sees_stop };
}

/// The munger loads the written count.
pub struct LoadWritten;

impl Play<(), View> for LoadWritten {
    ghost then = { sees_written };
}

/// A seat is split: the reader's role goes to the new one.
pub struct SplitReader;

impl Split<View> for SplitReader {
    ghost left = { without_reader };

    ghost right = { only_reader };
}

/// A seat is split: the munger's role goes to the new one.
pub struct SplitMunger;

impl Split<View> for SplitMunger {
    ghost left = { without_munger };

    ghost right = { only_munger };
}
