// Decimal numbers, read from words and written as text.
ghost use Rattle.std.specs.Prelude.{◌≡◌, ℕ, ◌==◌, ◌&&◌, ◌++◌, ◌<◌, ◌≤◌, ◌^◌, drop, length, nat_le, not, slice_index, take, true, Some, None, if◌then◌else◌, IfSome, OnOk, OnErr};
ghost use Rattle.std.specs.Fmt.{decimal, signed_decimal};
ghost use Rattle.std.specs.Char.{is_ascii_digit};
ghost use Rattle.std.specs.List.{list_all};
ghost use Rattle.std.specs.Str.Parse.{digits_value};
ghost use Rattle.cm_base.specs.Numbers.{has_no_leading_zero, number_of, negative_of, signed_of};

use crate::lanes::begins_with_8_digits;
use crate::transfer::NoMemory;
use itoa::Buffer;

/// The number that the word writes.
pub fn read_u64(word: &[u8]) -> Option<u64>
    ensures value { result ≡ number_of word.now }
    ensures bound { IfSome result (λ n. n < 10 ^ 18) }
{
    if may_be_number(word) {
        value_of(word)
    } else {
        None
    }
}

// Whether the word may write a number, if all its bytes are digits.
fn may_be_number(word: &[u8]) -> bool
    ensures { result ≡ (not (length word.now == 0) && nat_le (length word.now) 18 && has_no_leading_zero word.now) }
{
    !word.is_empty() && word.len() <= 18 && no_leading_zero(word)
}

// Whether the word begins with no 0, or is one digit.
fn no_leading_zero(word: &[u8]) -> bool
    requires { 0 < length word.now }
    ensures { result ≡ has_no_leading_zero word.now }
{
    word[0] != b'0' || word.len() == 1
}

// The number that the bytes write, if all are digits: the first eight are looked at at once.
fn value_of(word: &[u8]) -> Option<u64>
    requires { length word.now ≤ 18 }
    ensures value { result ≡ (if list_all is_ascii_digit word.now then Some (digits_value 10 word.now) else None) }
    ensures bound { IfSome result (λ n. n < 10 ^ 18) }
{
    if word.len() < 8 {
        return value_after(word, 0, 0);
    }
    if !begins_with_8_digits(word) {
        return None;
    }
    value_after(word, 8, value_of_8(word))
}

// The number that the first eight bytes write.
#[inline(always)]
fn value_of_8(word: &[u8]) -> u64
    requires long { 8 ≤ length word.now }
    requires digits { (k : ℕ) → k < 8 → is_ascii_digit (slice_index word.now k) ≡ true }
    ensures value { result ≡ digits_value 10 (take 8 word.now) }
    ensures small { result < 10 ^ 8 }
    ensures digits { list_all is_ascii_digit word.now ≡ list_all is_ascii_digit (drop 8 word.now) }
{
    let mut value = 0u64;
    for at in 0..8 {
        value = value * 10 + (word[at] - b'0') as u64;
    }
    value
}

// The number that the bytes write, after some that write another number, if all are digits.
#[inline(always)]
fn value_after(word: &[u8], from: usize, before: u64) -> Option<u64>
    requires within { from ≤ length word.now }
    requires few { length word.now ≤ 18 }
    requires value { before ≡ digits_value 10 (take from word.now) }
    requires small { before < 10 ^ from }
    requires digits { list_all is_ascii_digit word.now ≡ list_all is_ascii_digit (drop from word.now) }
    ensures value { result ≡ (if list_all is_ascii_digit word.now then Some (digits_value 10 word.now) else None) }
    ensures bound { IfSome result (λ n. n < 10 ^ 18) }
{
    let mut value = before;
    let mut at = from;
    while at < word.len() {
        let byte = word[at];
        if !byte.is_ascii_digit() {
            return None;
        }
        value = value * 10 + (byte - b'0') as u64;
        at += 1;
    }
    Some(value)
}

/// The number that the word writes, maybe after a minus sign.
pub(crate) fn read_i64(word: &[u8]) -> Option<i64>
    ensures { result ≡ signed_of word.now }
{
    match word {
        [] => None,
        [b'-', digits @ ..] => negative(read_u64(digits)?),
        [_, ..] => Some(read_u64(word)? as i64),
    }
}

// The negative of a number other than 0.
fn negative(number: u64) -> Option<i64>
    requires { number < 10 ^ 18 }
    ensures { result ≡ negative_of (Some number) }
{
    if number == 0 {
        None
    } else {
        Some(0 - number as i64)
    }
}

/// Appends the decimal text of a number. An `Err` changes nothing.
pub fn put_i64(out: &mut Vec<u8>, value: i64) -> Result<(), NoMemory>
    ensures ok { OnOk result (out.new.items ≡ out.old.items ++ signed_decimal value) }
    ensures err { OnErr result (out.new.items ≡ out.old.items) }
{
    let mut buffer = Buffer::new();
    out.extend_from_slice(buffer.format(value).as_bytes())
        .map_err(|_| NoMemory)
}

/// Appends the decimal text of a number that isn't negative. An `Err` changes nothing.
#[tactic(auto, using(std::proofs::lemmas::Fmt::decimal_digit))]
pub fn put_u64(out: &mut Vec<u8>, value: u64) -> Result<(), NoMemory>
    ensures ok { OnOk result (out.new.items ≡ out.old.items ++ decimal value) }
    ensures err { OnErr result (out.new.items ≡ out.old.items) }
{
    if value < 10 {
        return out.push(b'0' + value as u8).map_err(|_| NoMemory);
    }
    let mut buffer = Buffer::new();
    out.extend_from_slice(buffer.format(value).as_bytes())
        .map_err(|_| NoMemory)
}
