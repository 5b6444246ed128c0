// The lines of a block as a table: a row for each line, and a form for each way to write it.
ghost use Rattle.std.specs.Prelude.{◌≡◌};
ghost use Rattle.std.specs.List.{list_all};
ghost use Rattle.cm_board.specs.Rules.{rises};

use crate::board::{Divisors, Kind};
use crate::versions::most_in;
use std::alloc::{AllocError, Global};

/// The first line of a block: the subdevice's kind, and its channels, 1 to 64 and in the wider texts
/// to 256, or 0 where it is unused. The version is that of the board, on which it depends what the
/// block's lines may say.
#[derive(Clone, Copy)]
pub struct Head {
    pub version: u32,
    pub kind: Kind,
    pub channels: u32,
}

/// A number from `least` to `most`, and in the wider texts to `wide`, which isn't below `most`.
#[derive(Clone, Copy)]
pub struct Limits {
    pub least: u32,
    pub most: u32,
    pub wide: u32,
}

/// The sources that a word may have, as bits: on boards of version 1, of version 2, and of wider texts.
#[derive(Clone, Copy)]
pub struct Sets {
    pub first: u32,
    pub second: u32,
    pub wide: u32,
}

/// What a word has to be.
#[derive(Clone, Copy)]
pub enum Word {
    /// This very word. It says nothing.
    Fixed(&'static [u8]),
    /// A number within limits.
    Number(Limits),
    /// A signed number of 32 bits.
    Signed,
    /// Sources of a set by the board's version.
    Sources(Sets),
    /// One source.
    Source,
    /// One of these names.
    Name(&'static [&'static [u8]]),
    /// A channel of the subdevice, counted from 0.
    Channel,
    /// What a counter can divide by.
    Divisors,
}

/// What a word says.
#[derive(Drop)]
pub enum Value {
    Number(u32),
    Signed(i32),
    /// A name, by its place among those of the word.
    Name(usize),
    Divisors(Divisors),
}

impl Value {
    ghost use Rattle.std.specs.Prelude.{IfOk};
    ghost use Rattle.cm_board.specs.Rules.{rises};

    // Whether it is no divisors, or ones that rise.
    fn rises(&self) -> bool
        ensures { result ≡ rises self.now }
    {
        match self {
            Value::Divisors(divisors) => divisors.rise(),
            _ => true,
        }
    }

    /// Another of the same.
    pub fn copy(&self, alloc: Global) -> Result<Value, AllocError>
        ensures { IfOk result (λ value. value ≡ self.now) }
    {
        Ok(match self {
            Value::Number(number) => Value::Number(*number),
            Value::Signed(number) => Value::Signed(*number),
            Value::Name(place) => Value::Name(*place),
            Value::Divisors(divisors) => Value::Divisors(divisors.copy(alloc)?),
        })
    }
}

impl Default for Value {
    /// The number 0.
    fn default() -> Value {
        Value::Number(0)
    }
}

/// What the values of a line keep together.
#[derive(Clone, Copy)]
pub enum Rule {
    Free,
    /// The first number isn't above the second.
    Rising,
    /// The first signed number is below the second, which may stand after a channel.
    Below,
    /// The first number is even.
    Even,
    /// The first name isn't the third value's.
    Apart,
    /// Divisors rise.
    Ordered,
}

/// The blocks in which a line may stand.
#[derive(Clone, Copy)]
pub enum Place {
    /// Each subdevice that is in use.
    Any,
    /// Those that may take commands.
    Commands,
    /// Inputs that may take commands.
    Inputs,
}

/// What holds where a block has no such line.
#[derive(Clone, Copy)]
pub enum Absent {
    /// The block is refused.
    Missing,
    /// It is refused if it has another line of commands.
    MissingWithCommands,
    /// The block says nothing of it.
    Nothing,
    /// The line of this form, without a value. A line of commands holds only where the block has another.
    Stands(usize),
    /// The line of this form with this number, likewise.
    Says(usize, u32),
}

/// A way to write a line.
#[derive(Clone, Copy)]
pub struct Form {
    /// The place of its row in the table.
    pub row: usize,
    pub words: &'static [Word],
    pub rule: Rule,
}

/// What holds of a line however it is written.
#[derive(Clone, Copy)]
pub struct Row {
    /// How many such lines a block may have, or each channel of it.
    pub most: u32,
    /// And how many in the wider texts, which aren't fewer.
    pub wide: u32,
    /// The first version of a board that has it.
    pub since: u32,
    pub place: Place,
    pub absent: Absent,
    /// Whether it is a line about one channel, whose first value is the channel.
    pub of_channel: bool,
}

/// A table: the rows in the order in which lines are printed, and the forms.
#[derive(Clone, Copy)]
pub struct Table {
    pub rows: &'static [Row],
    pub forms: &'static [Form],
}

impl Place {
    ghost use Rattle.cm_board.specs.Rules.{admits};

    fn admits(self, kind: Kind) -> bool
        ensures { result ≡ admits self kind }
    {
        match self {
            Place::Any => !kind.is_unused(),
            Place::Commands => kind.may_command(),
            Place::Inputs => kind.may_fifo(),
        }
    }
}

impl Rule {
    ghost use Rattle.cm_board.specs.Rules.{keeps_rule};

    /// Whether the values of a line keep the rule together.
    pub fn is_kept(self, values: &[Value]) -> bool
        ensures { result ≡ keeps_rule self values.now }
    {
        match (self, values) {
            (Rule::Rising, [Value::Number(first), Value::Number(second), ..]) => first <= second,
            (Rule::Below, [Value::Signed(first), Value::Signed(second), ..]) => first < second,
            (
                Rule::Below,
                [
                    Value::Number(_),
                    Value::Signed(first),
                    Value::Signed(second),
                    ..
                ],
            ) => { first < second }
            (Rule::Even, [Value::Number(first), ..]) => first % 2 == 0,
            (Rule::Apart, [Value::Name(first), _, Value::Name(third), ..]) => first != third,
            (Rule::Ordered, _) => all_rise(values),
            _ => true,
        }
    }
}

// Whether all divisors among these values rise.
fn all_rise(values: &[Value]) -> bool
    ensures { result ≡ list_all rises values.now }
{
    for value in values {
        if !value.rises() {
            return false;
        }
    }
    true
}

impl Limits {
    ghost use Rattle.cm_board.specs.Versions.{most_in};

    /// The greatest number in texts of a version.
    pub fn most_in(&self, version: u32) -> u32
        ensures { result ≡ most_in version self.now.most self.now.wide }
    {
        most_in(version, self.most, self.wide)
    }
}

impl Row {
    ghost use Rattle.cm_board.specs.Table.{is_command, may_stand, needs};
    ghost use Rattle.cm_board.specs.Versions.{most_in};

    /// How many such lines a block may have in texts of a version, or each channel of it.
    pub fn most_in(&self, version: u32) -> u32
        ensures { result ≡ most_in version self.now.most self.now.wide }
    {
        most_in(version, self.most, self.wide)
    }

    /// Whether such a line may stand in the block.
    pub fn may_stand(&self, head: &Head) -> bool
        ensures { result ≡ may_stand head.now self.now }
    {
        self.since <= head.version && self.place.admits(head.kind)
    }

    /// Whether it is a line of commands.
    pub fn is_command(&self) -> bool
        ensures { result ≡ is_command self.now }
    {
        !matches!(self.place, Place::Any)
    }

    /// Whether a block needs such a line, where `takes` says whether it has a line of commands.
    pub fn is_needed(&self, head: &Head, takes: bool) -> bool
        ensures { result ≡ needs head.now takes self.now }
    {
        self.may_stand(head) && self.absent.is_needed(takes)
    }
}

impl Absent {
    ghost use Rattle.cm_board.specs.Table.{is_needed};

    fn is_needed(self, takes: bool) -> bool
        ensures { result ≡ is_needed self takes }
    {
        match self {
            Absent::Missing => true,
            Absent::MissingWithCommands => takes,
            _ => false,
        }
    }
}
