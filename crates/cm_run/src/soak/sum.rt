// The number and the sum of samples, taken as they come.
ghost use Rattle.std.specs.Prelude.{◌≡◌, ◌*◌, ◌≤◌, length};
ghost use Rattle.std.specs.List.{sum};

use crate::soak::part::Part;
use cm_base::transfer::NoMemory;
use cm_sample::consuming::Consumer;
use std::marker::Model;

/// The number and the sum of samples, taken as they come. Contracts see of it the part.
#[derive(Drop)]
pub struct Sum {
    count: u32,
    sum: u64,
}

impl Model for Sum {
    ghost use Rattle.cm_run.specs.declared.soak.part.Part.{Part};
    ghost use Rattle.cm_run.specs.SoakSumming.{part_of_sum, IsSum};

    ghost Value = { Part };

    ghost view = { part_of_sum };

    ghost invariant = { IsSum };
}

impl Sum {
    ghost use Rattle.std.specs.Prelude.{◌≡◌};

    /// Of no samples.
    pub fn new() -> Sum
        ensures { result ≡ record { count = 0; sum = 0 } }
    {
        Sum { count: 0, sum: 0 }
    }

    /// The number and the sum so far.
    pub fn part(&self) -> Part
        ensures { result ≡ self.now }
    {
        Part {
            count: self.count,
            sum: self.sum,
        }
    }
}

impl Consumer for Sum {
    ghost use Rattle.cm_run.specs.SoakSumming.{CanSum, numbers, numbers_of};

    ghost count = { λ s. s.count };

    ghost makes = { λ _. numbers_of };

    ghost made = { numbers };

    ghost accepts = { λ _. CanSum };

    fn consume(&mut self, words: &[u32]) -> Result<(), NoMemory> {
        self.sum += total(words);
        self.count += words.len() as u32;
        Ok(())
    }
}

// The sum of words.
fn total(words: &[u32]) -> u64
    requires { length words.now ≤ 4000000 }
    ensures sum { result ≡ sum words.now }
    ensures small { result ≤ length words.now * 4294967295 }
{
    let mut total = 0u64;
    for i in 0..words.len() {
        total += u64::from(words[i]);
    }
    total
}
