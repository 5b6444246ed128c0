// What a step of a stream answers.
use crate::scan::Scan;

/// The answer of a stream's step.
#[derive(Drop)]
pub enum StreamStep {
    /// The next scan, which is released.
    Given(Scan),
    /// An end was found, and all samples up to its count are released.
    Ended,
    /// A look in this call saw less than the next scan.
    Waiting,
    /// Memory ran out, and the next step tries the same scan again.
    NoMemory,
}
