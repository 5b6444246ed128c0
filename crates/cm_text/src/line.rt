// The line of one sample, as a short text.
ghost use Rattle.std.specs.Prelude.{◌≡◌, ◌≤◌, ◌++◌, codes, length, false, if◌then◌else◌};
ghost use Rattle.std.specs.Fmt.{decimal};
ghost use Rattle.cm_text.specs.Scales.{scaled_level, scaled_line};

use cm_base::short::Short;
use cm_sample::scale::Scale;

/// Makes a short text the line of a sample: its list index, and what its word says by the scale of its
/// list entry.
#[inline(always)]
pub(crate) fn put_line(line: &mut Short, scale: &Scale, raw: bool, index: usize, word: u32)
    requires code { raw ≡ false → word ≤ scale.now.maxdata }
    ensures { line.new ≡ scaled_line scale.now raw index word }
{
    line.clear();
    line.byte(b'\n');
    put_value(line, scale, raw, word);
    line.byte(b' ');
    line.number(index as u64);
}

// Puts what a word says before a short text.
#[inline(always)]
fn put_value(line: &mut Short, scale: &Scale, raw: bool, word: u32)
    requires room { length line.old ≤ 1 }
    requires code { raw ≡ false → word ≤ scale.now.maxdata }
    ensures text { line.new ≡ (if raw then codes "raw " ++ decimal word else scaled_level scale.now word) ++ line.old }
    ensures short { length line.new ≤ 25 }
{
    if raw {
        put_raw(line, word);
    } else {
        line.signed(scale.micro(word));
    }
}

fn put_raw(line: &mut Short, word: u32)
    requires room { length line.old ≤ 1 }
    ensures text { line.new ≡ (codes "raw " ++ decimal word) ++ line.old }
    ensures short { length line.new ≤ 25 }
{
    line.number(u64::from(word));
    line.byte(b' ');
    line.byte(b'w');
    line.byte(b'a');
    line.byte(b'r');
}
