// What a line of the signals part says.

use crate::signals::{IntAt, Slope};
use crate::wave::WaveAt;
use cm_base::lists::Times;

/// What a line of the signals part says.
#[derive(Drop)]
pub enum SignalLine {
    /// The wave of a channel.
    Wave(WaveAt),
    /// Edges of an external line, all with one slope.
    Edges(Slope, u32, Times),
    /// An internal trigger.
    Int(IntAt),
}
