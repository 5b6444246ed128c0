// What a body says to the prover alone.

/// Does nothing: the call reads a value, so that the prover knows from here on what holds of it, as the
/// invariant of its type, the range of a number or a clause of the call that gave it.
#[inline(always)]
pub fn shows<T>(_value: &T) {}
