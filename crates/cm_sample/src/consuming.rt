// What becomes of the samples that a client reads.
ghost use Rattle.std.specs.Prelude.{◌≡◌, ℕ, ◌+◌, ◌<◌, ◌++◌, List, length, slice_index, OnOk};

use cm_base::transfer::NoMemory;

/// What becomes of the samples that a client reads. They are handed over in pieces, in their order.
pub trait Consumer: Drop {
    /// How many samples were handed over.
    ghost count: { Self → ℕ };

    /// What it makes of samples.
    ghost makes: { Self → List ℕ → List ℕ };

    /// What it has made so far.
    ghost made: { Self → List ℕ };

    /// Whether a word may be the sample of a place.
    ghost accepts: { Self → ℕ → ℕ → Type 0 };

    /// Takes the next samples.
    fn consume(&mut self, words: &[u32]) -> Result<(), NoMemory>
        requires { (i : ℕ) → i < length words.now → accepts self.old (count self.old + i) (slice_index words.now i) }
        ensures count { OnOk result (count self.new ≡ count self.old + length words.now) }
        ensures made { OnOk result ((had : List ℕ) → count self.old ≡ length had → made self.old ≡ makes self.old had → made self.new ≡ makes self.old (had ++ words.now)) }
        ensures makes { makes self.new ≡ makes self.old }
        ensures accepts { (place word : ℕ) → accepts self.old place word → accepts self.new place word };
}

/// The samples are kept as they are.
impl Consumer for Vec<u32> {
    ghost count = { λ v. length v.items };

    ghost makes = { λ _ words. words };

    ghost made = { λ v. v.items };

    ghost accepts = { λ _ _ _. Unit {0} };

    fn consume(&mut self, words: &[u32]) -> Result<(), NoMemory> {
        self.extend_from_slice(words)?;
        Ok(())
    }
}
