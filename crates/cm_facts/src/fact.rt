// A fact as a line of text.
ghost use Rattle.std.specs.Prelude.{◌≡◌, ◌++◌, ◌∷◌, [], codes, decimal, map, OnOk};
ghost use Rattle.cm_facts.specs.FactLine.{fact_line, spaced, word_text};

use cm_base::numbers::{put_i64, put_u64};
use cm_base::source_text::put_sources;
use cm_base::transfer::NoMemory;
use cm_running::text::put_spaced;

/// A word of a fact.
#[derive(Clone, Copy)]
pub enum FactWord<'a> {
    /// These bytes.
    Fixed(&'a [u8]),
    Number(u64),
    Signed(i32),
    /// The names of the sources of a mask.
    Sources(u32),
}

/// Appends a fact: its key, then numbers, and then words, each after a space.
#[tactic(auto, unfolding(crate::specs::FactLine::fact_line))]
pub(crate) fn put_fact(
    text: &mut Vec<u8>,
    key: &[u8],
    numbers: &[u32],
    words: &[FactWord<'_>],
) -> Result<(), NoMemory>
    ensures { OnOk result (text.new.items ≡ text.old.items ++ fact_line key.now numbers.now (map word_text words.now)) }
{
    text.extend_from_slice(key)?;
    put_spaced(text, numbers)?;
    put_words(text, words)?;
    text.extend_from_slice(b"\n")?;
    Ok(())
}

/// Appends a fact with numbers of 32 bits and then a count.
pub(crate) fn put_count(
    text: &mut Vec<u8>,
    key: &[u8],
    numbers: &[u32],
    count: usize,
) -> Result<(), NoMemory>
    ensures { OnOk result (text.new.items ≡ text.old.items ++ fact_line key.now numbers.now (decimal count ∷ [])) }
{
    put_fact(text, key, numbers, &[FactWord::Number(count as u64)])
}

// Appends words, each after a space.
#[tactic(auto, using(crate::proofs::Pieces::word_more, crate::proofs::Pieces::none_more))]
fn put_words(text: &mut Vec<u8>, words: &[FactWord<'_>]) -> Result<(), NoMemory>
    ensures { OnOk result (text.new.items ≡ text.old.items ++ spaced (map word_text words.now)) }
{
    match words {
        [] => Ok(()),
        [word, more @ ..] => {
            put_after_space(text, *word)?;
            put_words(text, more)
        }
    }
}

// Appends a word after a space.
fn put_after_space(text: &mut Vec<u8>, word: FactWord<'_>) -> Result<(), NoMemory>
    ensures { OnOk result (text.new.items ≡ text.old.items ++ (codes " " ++ word_text word.entry)) }
{
    text.extend_from_slice(b" ")?;
    put_word(text, word)
}

fn put_word(text: &mut Vec<u8>, word: FactWord<'_>) -> Result<(), NoMemory>
    ensures { OnOk result (text.new.items ≡ text.old.items ++ word_text word.entry) }
{
    match word {
        FactWord::Fixed(word) => Ok(text.extend_from_slice(word)?),
        FactWord::Number(number) => put_u64(text, number),
        FactWord::Signed(number) => put_i64(text, i64::from(number)),
        FactWord::Sources(mask) => put_sources(text, mask),
    }
}
