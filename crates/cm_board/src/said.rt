// What the lines of a block say, value by value.
ghost use Rattle.std.specs.Prelude.{◌≡◌};
ghost use Rattle.cm_board.specs.Said as spec;

use crate::items::Item;
use crate::table::Value;

/// The number at a place of a line's values, or 0.
pub fn number_at(values: &[Value], at: usize) -> u32
    ensures { result ≡ spec.number_at at values.now }
{
    match values {
        [] => 0,
        [first, more @ ..] => {
            if 0 < at {
                return number_at(more, at - 1);
            }
            match first {
                Value::Number(n) => *n,
                _ => 0,
            }
        }
    }
}

/// The signed number at a place, or 0.
pub fn signed_at(values: &[Value], at: usize) -> i32
    ensures { result ≡ spec.signed_at at values.now }
{
    match values {
        [] => 0,
        [first, more @ ..] => {
            if 0 < at {
                return signed_at(more, at - 1);
            }
            match first {
                Value::Signed(z) => *z,
                _ => 0,
            }
        }
    }
}

/// The place of the name at a place, or 0.
pub fn name_at(values: &[Value], at: usize) -> usize
    ensures { result ≡ spec.name_at at values.now }
{
    match values {
        [] => 0,
        [first, more @ ..] => {
            if 0 < at {
                return name_at(more, at - 1);
            }
            match first {
                Value::Name(n) => *n,
                _ => 0,
            }
        }
    }
}

/// A number of the line of a row, or what holds without the line.
pub fn number_of(items: &[Item], row: usize, word: usize, default: u32) -> u32
    ensures { result ≡ spec.number_of row word default items.now }
{
    for item in items {
        if item.row == row {
            return number_at(item.values.as_slice(), word);
        }
    }
    default
}

/// Whether the line of a row stands in the block.
pub fn has_line(items: &[Item], row: usize) -> bool
    ensures { result ≡ spec.has_line row items.now }
{
    for item in items {
        if item.row == row {
            return true;
        }
    }
    false
}
