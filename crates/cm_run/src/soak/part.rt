// What the streams of a job's lines sum up to.
ghost use Rattle.std.specs.Prelude.{◌≡◌, ◌∷◌, []};
ghost use Rattle.cm_run.specs.SoakSums as spec;

use cm_expand::plan::Plan;
use cm_ring::reader::Reader;

/// How many samples were read of a line, and their sum.
#[derive(Clone, Copy, Debug, PartialEq, Eq)]
pub struct Part {
    pub count: u32,
    pub sum: u64,
}

/// A part for each of four subdevices.
#[derive(Clone, Copy, Debug, PartialEq, Eq)]
pub struct Summary {
    pub parts: [Part; 4],
}

/// The parts of the subdevices, with the readers of the lines' rings in the order of the lines.
#[derive(Drop)]
pub struct Soaked<'a> {
    pub summary: Summary,
    pub readers: Vec<Reader<Plan<'a>>>,
}

// The part with this number, or zeros.
fn part_at(parts: &[Part], i: usize) -> Part
    ensures { result ≡ spec.part_at parts.now i }
{
    if i < parts.len() {
        parts[i]
    } else {
        Part { count: 0, sum: 0 }
    }
}

/// The first four parts, with zeros for those that are missing.
pub(crate) fn summary_of(parts: &[Part]) -> Summary
    ensures { result.parts ≡ spec.part_at parts.now 0 ∷ spec.part_at parts.now 1 ∷ spec.part_at parts.now 2 ∷ spec.part_at parts.now 3 ∷ [] }
{
    Summary {
        parts: [
            part_at(parts, 0),
            part_at(parts, 1),
            part_at(parts, 2),
            part_at(parts, 3),
        ],
    }
}
