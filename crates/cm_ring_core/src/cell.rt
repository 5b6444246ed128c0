// The cells of a ring.
ghost use Rattle.std.specs.Prelude.{◌≡◌, ◌+◌, ◌%◌, ◌<◌, ◌≤◌};

/// The cell that is some steps, at most once around, after another.
pub fn cell_after(first: usize, steps: usize, size: usize) -> usize
    requires first { first < size }
    requires steps { steps ≤ size }
    requires small { size ≤ 1048576 }
    ensures value { result ≡ (first + steps) % size }
    ensures within { result < size }
{
    let cell = first + steps;
    if cell < size { cell } else { cell - size }
}
