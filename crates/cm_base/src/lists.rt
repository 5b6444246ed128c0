// Lists of numbers that contracts see as the lists alone.
use std::alloc::AllocError;
use std::marker::Model;

/// Signed numbers, seen by contracts as their list.
#[derive(Drop)]
pub struct Ints {
    items: Vec<i32>,
}

impl Model for Ints {
    ghost use Rattle.std.specs.Prelude.{List, ℤ};

    ghost Value = { List ℤ };

    ghost view = { λ n. n.items.items };
}

impl Ints {
    ghost use Rattle.std.specs.Prelude.{◌≡◌};

    pub fn new(items: Vec<i32>) -> Ints
        ensures { result ≡ items.items }
    {
        Ints { items }
    }

    pub fn as_slice(&self) -> &[i32]
        ensures { result.now ≡ self.now }
    {
        &self.items
    }
}

/// Numbers, such as the words of a line or the data of an instruction, seen by contracts as their list.
#[derive(Drop)]
pub struct Nums {
    items: Vec<u32>,
}

impl Model for Nums {
    ghost use Rattle.std.specs.Prelude.{List, ℕ};

    ghost Value = { List ℕ };

    ghost view = { λ n. n.items.items };
}

impl Nums {
    ghost use Rattle.std.specs.Prelude.{◌≡◌};

    pub fn new(items: Vec<u32>) -> Nums
        ensures { result ≡ items.items }
    {
        Nums { items }
    }

    pub fn as_slice(&self) -> &[u32]
        ensures { result.now ≡ self.now }
    {
        &self.items
    }
}

/// Times in nanoseconds, seen by contracts as their list.
#[derive(Drop)]
pub struct Times {
    items: Vec<u64>,
}

impl Model for Times {
    ghost use Rattle.std.specs.Prelude.{List, ℕ};

    ghost Value = { List ℕ };

    ghost view = { λ n. n.items.items };
}

impl Times {
    ghost use Rattle.std.specs.Prelude.{◌≡◌, ◌++◌, is_ok, if◌then◌else◌};

    pub fn new(items: Vec<u64>) -> Times
        ensures { result ≡ items.items }
    {
        Times { items }
    }

    pub fn as_slice(&self) -> &[u64]
        ensures { result.now ≡ self.now }
    {
        &self.items
    }

    /// Adds times after the others. Where memory runs out nothing changes.
    pub fn extend(&mut self, times: &[u64]) -> Result<(), AllocError>
        ensures { self.new ≡ (if is_ok result then self.old ++ times.now else self.old) }
    {
        self.items.extend_from_slice(times)
    }
}
