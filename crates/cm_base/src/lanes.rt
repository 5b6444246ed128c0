// Bytes of a text found many at a time.
ghost use Rattle.std.specs.Prelude.{◌≡◌, ℕ, ◌+◌, ◌≤◌, ◌<◌, drop, false, length, map, slice_index, true, IfSome};
ghost use Rattle.std.specs.Char.{is_ascii_digit};
ghost use Rattle.std.specs.List.{list_all, position, prefix_len};
ghost use Rattle.std.specs.Simd.Lanes.{mask_l};
ghost use Rattle.cm_base.specs.Lines.{is_printable};
ghost use Rattle.cm_base.specs.Stops.{differs, is_no_digit, is_byte, is_unprintable};

use std::simd::prelude::*;

/// The place of the first such byte.
#[inline(always)]
pub fn first_byte(text: &[u8], byte: u8) -> Option<usize>
    ensures place { result ≡ position (is_byte byte) text.now }
    ensures within { IfSome result (λ at. at < length text.now) }
{
    let at = other_bytes(text, byte);
    if at < text.len() { Some(at) } else { None }
}

// How many bytes stand before the first such byte.
#[inline(always)]
fn other_bytes(text: &[u8], byte: u8) -> usize
    ensures { result ≡ prefix_len (differs byte) text.now }
{
    let mut at = 0;
    while text.len() - at >= 16 {
        let same = same_bytes(u8x16::from_slice(&text[at..]), byte);
        if same != 0 {
            return at + same.trailing_zeros() as usize;
        }
        at += 16;
    }
    other_bytes_end(text, at, byte)
}

// Where the first such byte stands from a place on, among the last bytes.
#[inline(always)]
fn other_bytes_end(text: &[u8], from: usize, byte: u8) -> usize
    requires { from ≤ length text.now }
    ensures { result ≡ from + prefix_len (differs byte) (drop from text.now) }
{
    if text.len() - from < 8 {
        return other_bytes_one_by_one(text, from, byte);
    }
    let same = same_of_8(u8x8::from_slice(&text[from..]), byte);
    if same != 0 {
        return from + same.trailing_zeros() as usize;
    }
    other_bytes_one_by_one(text, from + 8, byte)
}

#[inline(always)]
fn other_bytes_one_by_one(text: &[u8], from: usize, byte: u8) -> usize
    requires { from ≤ length text.now }
    ensures { result ≡ from + prefix_len (differs byte) (drop from text.now) }
{
    let mut at = from;
    while at < text.len() && text[at] != byte {
        at += 1;
    }
    at
}

/// How many bytes stand before the first one that is not printable.
#[inline(always)]
pub(crate) fn printable_len(text: &[u8]) -> usize
    ensures value { result ≡ prefix_len is_printable text.now }
    ensures within { result ≤ length text.now }
{
    let mut at = 0;
    while text.len() - at >= 16 {
        let stops = unprintable(u8x16::from_slice(&text[at..]));
        if stops != 0 {
            return at + stops.trailing_zeros() as usize;
        }
        at += 16;
    }
    printable_end(text, at)
}

// The same from a place on, of the last bytes.
#[inline(always)]
fn printable_end(text: &[u8], from: usize) -> usize
    requires { from ≤ length text.now }
    ensures { result ≡ from + prefix_len is_printable (drop from text.now) }
{
    if text.len() - from < 8 {
        return printable_one_by_one(text, from);
    }
    let stops = unprintable_of_8(u8x8::from_slice(&text[from..]));
    if stops != 0 {
        return from + stops.trailing_zeros() as usize;
    }
    printable_one_by_one(text, from + 8)
}

#[inline(always)]
fn printable_one_by_one(text: &[u8], from: usize) -> usize
    requires { from ≤ length text.now }
    ensures { result ≡ from + prefix_len is_printable (drop from text.now) }
{
    let mut at = from;
    while at < text.len() && text[at] >= 33 && text[at] <= 126 {
        at += 1;
    }
    at
}

/// Whether the first eight bytes are digits.
#[inline(always)]
pub(crate) fn begins_with_8_digits(word: &[u8]) -> bool
    requires { 8 ≤ length word.now }
    ensures digits { result ≡ true → (k : ℕ) → k < 8 → is_ascii_digit (slice_index word.now k) ≡ true }
    ensures others { result ≡ false → list_all is_ascii_digit word.now ≡ false }
{
    other_than_digits(u8x8::from_slice(word)) == 0
}

// Each bit is one of the bytes: whether it is the one that is looked for, isn't printable or is no digit.

#[inline(always)]
fn same_bytes(bytes: u8x16, byte: u8) -> u64
    ensures { result ≡ mask_l (map (is_byte byte) bytes) }
{
    bytes.simd_eq(u8x16::splat(byte)).to_bitmask()
}

#[inline(always)]
fn same_of_8(bytes: u8x8, byte: u8) -> u64
    ensures { result ≡ mask_l (map (is_byte byte) bytes) }
{
    bytes.simd_eq(u8x8::splat(byte)).to_bitmask()
}

#[inline(always)]
fn unprintable(bytes: u8x16) -> u64
    ensures { result ≡ mask_l (map is_unprintable bytes) }
{
    (bytes - u8x16::splat(33))
        .simd_ge(u8x16::splat(94))
        .to_bitmask()
}

#[inline(always)]
fn unprintable_of_8(bytes: u8x8) -> u64
    ensures { result ≡ mask_l (map is_unprintable bytes) }
{
    (bytes - u8x8::splat(33))
        .simd_ge(u8x8::splat(94))
        .to_bitmask()
}

#[inline(always)]
fn other_than_digits(bytes: u8x8) -> u64
    ensures { result ≡ mask_l (map is_no_digit bytes) }
{
    (bytes - u8x8::splat(b'0'))
        .simd_ge(u8x8::splat(10))
        .to_bitmask()
}
