// Between which levels a wave stays.
ghost use Rattle.std.specs.Prelude.{◌≡◌, ◌∷◌};
ghost use Rattle.cm_facts.specs.Bounds as spec;

use cm_signal::wave::Wave;

/// Returns the lowest and the highest level of a wave, in micro-units.
pub(crate) fn wave_bounds(wave: &Wave) -> (i32, i32)
    ensures { result ≡ spec.wave_bounds wave.now }
{
    match wave {
        Wave::Const(level) => (*level, *level),
        Wave::Square(low, high, _) => bounds_of(&[*low, *high]),
        Wave::Saw(low, high, _) => (*low, *high),
        Wave::Table(_, levels) => bounds_of(levels.as_slice()),
        Wave::Record(_, levels) => bounds_of(levels.as_slice()),
    }
}

// Returns the lowest and the highest of some levels.
fn bounds_of(levels: &[i32]) -> (i32, i32)
    ensures { result ≡ spec.bounds_of levels.now }
{
    match levels {
        [] => (0, 0),
        [first, more @ ..] => widened(*first, more),
    }
}

// Returns the lowest and the highest of a level and some more.
fn widened(first: i32, more: &[i32]) -> (i32, i32)
    ensures { result ≡ spec.bounds_of (first ∷ more.now) }
{
    let mut least = first;
    let mut greatest = first;
    for level in more {
        least = least.min(*level);
        greatest = greatest.max(*level);
    }
    (least, greatest)
}
