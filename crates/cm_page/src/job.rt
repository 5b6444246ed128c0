// A job in memory as a source.
ghost use Rattle.std.specs.Prelude.{◌≡◌, ◌≤◌, drop, length, min, take, Some};

use cm_base::outside::{Failed, Source};

/// The bytes of a job, which are read without a fault.
#[derive(Drop)]
pub(crate) struct Job<'a> {
    bytes: &'a [u8],
    at: usize,
    ghost in_range: { at ≤ length bytes.now },
}

impl<'a> Job<'a> {
    /// Creates a source that has given nothing yet.
    pub(crate) fn new(bytes: &'a [u8]) -> Job<'a>
        ensures bytes { result.bytes.now ≡ bytes.now }
        ensures at { result.at ≡ 0 }
    {
        Job { bytes, at: 0 }
    }
}

impl Source for Job<'_> {
    ghost left = { λ s. Some (drop s.at s.bytes.now) };

    ghost faults = { λ _. 0 };

    fn read(&mut self, buf: &mut [u8]) -> Result<usize, Failed> {
        let count = copy_front(&self.bytes[self.at..], buf);
        self.at += count;
        Ok(count)
    }
}

// Copies as much of one slice as fits to the start of the other.
fn copy_front(from: &[u8], to: &mut [u8]) -> usize
    ensures count { result ≡ min (length to.new) (length from.now) }
    ensures copied { take result to.new ≡ take result from.now }
{
    let count = to.len().min(from.len());
    to[..count].copy_from_slice(&from[..count]);
    count
}
