// The words that are moved, and the codes that they must be when they come.
ghost use Rattle.std.specs.Prelude.{◌≡◌, IfOk};
ghost use Rattle.cm_load.specs.Words.{back_half, front_half, place_code, place_word, place_words};

use std::alloc::{AllocError, Global};

/// The word that is put at a place: bits of the place, mixed so that neighbours differ. The greatest
/// code is 255 or 65,535.
pub fn word_at(place: u32, maxdata: u32) -> u32
    ensures { result ≡ place_word maxdata place }
{
    (place.wrapping_mul(2_654_435_761) >> 16) & maxdata
}

/// The code that comes for the word of a place, where words are munged by an offset: half of all
/// codes further, from the last code on to the first again.
pub fn code_at(place: u32, maxdata: u32) -> u32
    ensures { result ≡ place_code maxdata place }
{
    word_at(place, maxdata).wrapping_add(maxdata / 2 + 1) & maxdata
}

/// The words of the first so many places.
pub fn first_words(alloc: Global, count: u32, maxdata: u32) -> Result<Vec<u32>, AllocError>
    ensures { IfOk result (λ words. words.items ≡ place_words maxdata count) }
{
    let mut words = Vec::with_capacity(alloc, count as usize)?;
    for place in 0..count {
        words.push(word_at(place, maxdata))?;
    }
    Ok(words)
}

/// Consecutive places.
#[derive(Clone, Copy, Drop)]
pub struct Stretch {
    pub first: u32,
    pub count: u32,
}

impl Stretch {
    /// The two halves.
    pub fn halves(self) -> (Stretch, Stretch)
        ensures front { result.0 ≡ front_half self }
        ensures back { result.1 ≡ back_half self }
    {
        let half = self.count / 2;
        let front = Stretch {
            first: self.first,
            count: half,
        };
        let back = Stretch {
            first: self.first.wrapping_add(half),
            count: self.count - half,
        };
        (front, back)
    }
}
