// Bytes that take no memory.
use std::marker::Model;

/// Up to `N` bytes. Contracts see of them the list of those that are there.
#[derive(Drop)]
pub(crate) struct Bytes<const N: usize> {
    bytes: [u8; N],
    count: usize,
}

impl<const N: usize> Model for Bytes<N> {
    ghost use Rattle.std.specs.Prelude.{ℕ, List, take, ◌≤◌};

    ghost Value = { List ℕ };

    ghost view = { λ b. take b.count b.bytes };

    ghost invariant = { λ b. b.count ≤ N };
}

impl<const N: usize> Bytes<N> {
    ghost use Rattle.std.specs.Prelude.{◌≡◌, ◌+◌, ◌<◌, ◌≤◌, ◌++◌, [], length, IfSome, IfNone};

    /// No bytes.
    #[inline(always)]
    pub fn new() -> Bytes<N>
        ensures { result ≡ [] }
    {
        Bytes {
            bytes: [0; N],
            count: 0,
        }
    }

    /// These bytes, or none where they are more than `N`.
    pub fn of(slice: &[u8]) -> Option<Bytes<N>>
        ensures some { IfSome result (λ b. b ≡ slice.now) }
        ensures none { IfNone result (N < length slice.now) }
    {
        let count = slice.len();
        if count > N {
            return None;
        }
        let mut bytes = [0; N];
        bytes[..count].copy_from_slice(slice);
        Some(Bytes { bytes, count })
    }

    /// The same bytes once more.
    #[inline(always)]
    pub fn copy(&self) -> Bytes<N>
        ensures same { result ≡ self.now }
        ensures short { length result ≤ N }
    {
        Bytes {
            bytes: self.bytes,
            count: self.count,
        }
    }

    /// How many there are.
    #[inline(always)]
    pub fn len(&self) -> usize
        ensures { result ≡ length self.now }
    {
        self.count
    }

    /// The bytes.
    #[inline(always)]
    pub fn as_slice(&self) -> &[u8]
        ensures { result.now ≡ self.now }
    {
        &self.bytes[..self.count]
    }

    /// Leaves none.
    pub fn clear(&mut self)
        ensures { self.new ≡ [] }
    {
        self.count = 0;
    }

    /// Puts other bytes after these. It copies `M` bytes, however many there are: that takes less time
    /// than a copy of as many as there are.
    #[tactic(auto, using(crate::proofs::Copied::first_of_both))]
    #[inline(always)]
    pub fn append<const M: usize>(&mut self, other: &Bytes<M>)
        requires room { length self.old + M ≤ N }
        ensures { self.new ≡ self.old ++ other.now }
    {
        let count = self.count;
        let more = &other.bytes[..];
        let bytes = &mut self.bytes[..];
        bytes[count..count + more.len()].copy_from_slice(more);
        self.count += other.count;
    }
}
