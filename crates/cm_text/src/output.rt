// The line of a word that is put out.
ghost use Rattle.std.specs.Prelude.{◌≡◌, ◌≤◌, ◌++◌, [], codes, length, OnOk};
ghost use Rattle.std.specs.Fmt.{decimal};
ghost use Rattle.cm_text.specs.Outputs.{output_text};

use cm_base::short::Short;
use cm_base::transfer::NoMemory;
use cm_expand::conv::Conv;

/// Appends the line of a word that is put out when its conversion comes.
#[inline(always)]
pub fn put_output(
    text: &mut Vec<u8>,
    sub: u32,
    conversion: &Conv,
    word: u32,
) -> Result<(), NoMemory>
    ensures { OnOk result (text.new.items ≡ text.old.items ++ output_text (record { sub = sub; time = conversion.now.time; index = conversion.now.list_index; word = word })) }
{
    let mut line = Short::new();
    put_word(&mut line, conversion.list_index, word);
    line.byte(b' ');
    line.number(conversion.time);
    put_sub(&mut line, sub);
    line.append_to(text)
}

// The end of the line: the list index and the word.
#[inline(always)]
fn put_word(line: &mut Short, index: u32, word: u32)
    requires { line.old ≡ [] }
    ensures text { line.new ≡ decimal index ++ codes " " ++ decimal word ++ codes "\n" }
    ensures length { length line.new ≤ 22 }
{
    line.byte(b'\n');
    line.small(word);
    line.byte(b' ');
    line.small(index);
}

// The start of the line: what is put out, and of which subdevice.
#[inline(always)]
fn put_sub(line: &mut Short, sub: u32)
    requires room { length line.old ≤ 43 }
    ensures { line.new ≡ codes "out " ++ decimal sub ++ codes " " ++ line.old }
{
    line.byte(b' ');
    line.small(sub);
    line.byte(b' ');
    line.byte(b't');
    line.byte(b'u');
    line.byte(b'o');
}
