// The texts of what a running command gives.
ghost use Rattle.std.specs.Prelude.{◌≡◌, ℕ, ◌+◌, ◌-◌, ◌<◌, ◌≤◌, ◌^◌, ◌++◌, codes, length, take, drop, slice_index, OnOk};
ghost use Rattle.std.specs.Fmt.{decimal};
ghost use Rattle.cm_text.specs.Format.{IsSample, sample_line, sample_lines};
ghost use Rattle.cm_running.specs.Texts.{codes_text, count_text, words_text};

use cm_base::numbers::put_u64;
use cm_base::short::Short;
use cm_base::transfer::NoMemory;
use cm_ring_core::local::LocalRing;
use cm_text::sample_lines::SampleLines;

/// Appends the answer that has a count.
pub fn put_count(text: &mut Vec<u8>, count: u64) -> Result<(), NoMemory>
    ensures { OnOk result (text.new.items ≡ text.old.items ++ count_text count) }
{
    let mut line = Short::new();
    line.byte(b'\n');
    line.number(count);
    line.byte(b' ');
    line.byte(b'k');
    line.byte(b'o');
    line.append_to(text)
}

/// Appends words, each after a space.
pub fn put_spaced(text: &mut Vec<u8>, words: &[u32]) -> Result<(), NoMemory>
    ensures { OnOk result (text.new.items ≡ text.old.items ++ words_text words.now) }
{
    for word in words {
        put_word(text, *word)?;
    }
    Ok(())
}

fn put_word(text: &mut Vec<u8>, word: u32) -> Result<(), NoMemory>
    ensures { OnOk result (text.new.items ≡ text.old.items ++ (codes " " ++ decimal word)) }
{
    text.extend_from_slice(b" ")?;
    put_u64(text, u64::from(word))
}

/// Appends the answer to a read that was granted so many samples of a ring, which are all that are
/// granted.
pub(crate) fn put_taken(
    text: &mut Vec<u8>,
    lines: &mut SampleLines<'_>,
    ring: &LocalRing,
    count: u32,
) -> Result<(), NoMemory>
    requires granted { count ≡ ring.now.ra - ring.now.r }
    requires held { count ≤ length ring.now.held }
    requires small { ring.now.r < 2 ^ 62 }
    requires codes { (i : ℕ) → i < count → IsSample lines.old (ring.now.r + i) (slice_index ring.now.held i) }
    ensures text { OnOk result (text.new.items ≡ text.old.items ++ (codes "ok " ++ decimal count ++ codes "\n" ++ sample_lines lines.old ring.now.r (take count ring.now.held))) }
    ensures format { lines.new ≡ lines.old }
{
    put_count(text, u64::from(count))?;
    let (first, rest) = ring.granted();
    lines.put_parts(text, ring.places().r, first, rest)
}

/// Appends the granted samples of a ring in codes, after their count.
pub(crate) fn put_codes(text: &mut Vec<u8>, ring: &LocalRing, count: u32) -> Result<(), NoMemory>
    requires granted { count ≡ ring.now.ra - ring.now.r }
    requires held { count ≤ length ring.now.held }
    ensures { OnOk result (text.new.items ≡ text.old.items ++ codes_text (take count ring.now.held)) }
{
    text.extend_from_slice(b"ok ")?;
    put_u64(text, u64::from(count))?;
    let (first, rest) = ring.granted();
    put_spaced(text, first)?;
    put_spaced(text, rest)?;
    text.extend_from_slice(b"\n")?;
    Ok(())
}

/// Appends the answer that has the granted sample `i` of a ring.
pub(crate) fn put_looked(
    text: &mut Vec<u8>,
    lines: &SampleLines<'_>,
    ring: &LocalRing,
    i: u32,
) -> Result<(), NoMemory>
    requires granted { i < ring.now.ra - ring.now.r }
    requires places { ring.now.r + i < 2 ^ 63 }
    requires code { IsSample lines.now (ring.now.r + i) (slice_index ring.now.held i) }
    ensures { OnOk result (text.new.items ≡ text.old.items ++ (codes "ok " ++ sample_line lines.now (ring.now.r + i) (slice_index ring.now.held i))) }
{
    text.extend_from_slice(b"ok ")?;
    lines.put_one(text, ring.places().r + u64::from(i), ring.word(i))
}

/// Appends so many granted samples of a ring in codes, after their count, from the one `from` places
/// after the first on.
pub(crate) fn put_mapped(
    text: &mut Vec<u8>,
    ring: &LocalRing,
    from: u32,
    count: u32,
) -> Result<(), NoMemory>
    requires granted { 0 < count → from + count ≤ ring.now.ra - ring.now.r }
    requires few { ring.now.ra - ring.now.r ≤ 2 ^ 20 }
    requires held { ring.now.ra - ring.now.r ≤ length ring.now.held }
    ensures { OnOk result (text.new.items ≡ text.old.items ++ codes_text (take count (drop from ring.now.held))) }
{
    text.extend_from_slice(b"ok ")?;
    put_u64(text, u64::from(count))?;
    put_cells(text, ring, from, count)?;
    text.extend_from_slice(b"\n")?;
    Ok(())
}

// Appends so many granted samples of a ring, each after a space.
fn put_cells(text: &mut Vec<u8>, ring: &LocalRing, from: u32, count: u32) -> Result<(), NoMemory>
    requires granted { 0 < count → from + count ≤ ring.now.ra - ring.now.r }
    requires few { ring.now.ra - ring.now.r ≤ 2 ^ 20 }
    requires held { ring.now.ra - ring.now.r ≤ length ring.now.held }
    ensures { OnOk result (text.new.items ≡ text.old.items ++ words_text (take count (drop from ring.now.held))) }
{
    for i in 0..count {
        put_word(text, ring.word(from + i))?;
    }
    Ok(())
}
