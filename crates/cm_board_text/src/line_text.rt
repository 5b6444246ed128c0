// The lines of a block, written as text.
ghost use Rattle.std.specs.Prelude.{◌≡◌, ◌++◌, OnOk, map};
ghost use Rattle.cm_base.specs.WrittenLines.{written_line};
ghost use Rattle.cm_board_text.specs.Printed.{item_words, items_text, name_at, name_text, number_text, space_before, spaced, value_text, words_text};
ghost use Rattle.cm_board.specs.Table.{form_at, form_text, table_text, word_text};

use crate::divisors::put_divisors;
use cm_base::numbers::{put_i64, put_u64};
use cm_base::source_text::put_sources;
use cm_base::transfer::NoMemory;
use cm_board::items::Item;
use cm_board::table::{Form, Rule, Table, Value, Word};

// A number that a word says.
fn put_number(out: &mut Vec<u8>, kind: &Word, number: u32) -> Result<(), NoMemory>
    ensures { OnOk result (out.new.items ≡ out.old.items ++ number_text (word_text kind.now) number) }
{
    match kind {
        Word::Sources(_) => put_sources(out, number),
        Word::Source => put_sources(out, number),
        _ => put_u64(out, number as u64),
    }
}

// The name at a place, or none.
#[tactic(auto, using(crate::proofs::TableAt::name_is, crate::proofs::TableAt::no_name_is))]
fn name_at<'a>(names: &[&'a [u8]], at: usize) -> &'a [u8]
    ensures { result.now ≡ name_at at (map (λ name. name.now) names.now) }
{
    if at < names.len() { names[at] } else { &[] }
}

// A name that a word says.
fn put_name(out: &mut Vec<u8>, kind: &Word, place: usize) -> Result<(), NoMemory>
    ensures { OnOk result (out.new.items ≡ out.old.items ++ name_text (word_text kind.now) place) }
{
    match kind {
        Word::Name(names) => Ok(out.extend_from_slice(name_at(names, place))?),
        _ => Ok(()),
    }
}

// What a word says.
fn put_value(out: &mut Vec<u8>, kind: &Word, value: &Value) -> Result<(), NoMemory>
    ensures { OnOk result (out.new.items ≡ out.old.items ++ value_text (word_text kind.now) value.now) }
{
    match value {
        Value::Number(number) => put_number(out, kind, *number),
        Value::Signed(number) => put_i64(out, *number as i64),
        Value::Name(place) => put_name(out, kind, *place),
        Value::Divisors(divisors) => put_divisors(out, divisors),
    }
}

// The space before a word, but the first of a line has none.
fn put_space(out: &mut Vec<u8>, first: bool) -> Result<(), NoMemory>
    ensures { OnOk result (out.new.items ≡ out.old.items ++ space_before first) }
{
    if first { Ok(()) } else { Ok(out.push(b' ')?) }
}

// A fixed word.
fn put_key(out: &mut Vec<u8>, first: bool, key: &[u8]) -> Result<(), NoMemory>
    ensures { OnOk result (out.new.items ≡ out.old.items ++ (space_before first ++ key.now)) }
{
    put_space(out, first)?;
    Ok(out.extend_from_slice(key)?)
}

// A word that says something.
fn put_said(out: &mut Vec<u8>, first: bool, kind: &Word, value: &Value) -> Result<(), NoMemory>
    ensures { OnOk result (out.new.items ≡ out.old.items ++ (space_before first ++ value_text (word_text kind.now) value.now)) }
{
    put_space(out, first)?;
    put_value(out, kind, value)
}

// Words with spaces between them, the first of a line or others.
#[tactic(auto, using(crate::proofs::Written::word_written, crate::proofs::Written::none_written))]
fn put_words(
    out: &mut Vec<u8>,
    first: bool,
    kinds: &[Word],
    values: &[Value],
) -> Result<(), NoMemory>
    ensures { OnOk result (out.new.items ≡ out.old.items ++ spaced first (words_text (map word_text kinds.now) values.now)) }
{
    match kinds {
        [] => Ok(()),
        [kind, kinds @ ..] => match kind {
            Word::Fixed(key) => {
                put_key(out, first, key)?;
                put_words(out, false, kinds, values)
            }
            _ => match values {
                [] => Ok(()),
                [value, values @ ..] => {
                    put_said(out, first, kind, value)?;
                    put_words(out, false, kinds, values)
                }
            },
        },
    }
}

// The form at a place.
#[tactic(auto, using(crate::proofs::TableAt::form_is, crate::proofs::TableAt::no_form_is))]
fn form_at(forms: &[Form], at: usize) -> Form
    ensures { form_text result ≡ form_at at (map form_text forms.now) }
{
    if at < forms.len() {
        forms[at]
    } else {
        Form {
            row: 0,
            words: &[],
            rule: Rule::Free,
        }
    }
}

// One line.
#[tactic(auto, using(crate::proofs::Written::line_written))]
fn put_item(out: &mut Vec<u8>, table: &Table, item: &Item) -> Result<(), NoMemory>
    ensures { OnOk result (out.new.items ≡ out.old.items ++ written_line (item_words (table_text table.now) item.now)) }
{
    let form = form_at(table.forms, item.form);
    put_words(out, true, form.words, item.values.as_slice())?;
    Ok(out.push(b'\n')?)
}

/// The lines of a block as text.
pub(crate) fn put_items(out: &mut Vec<u8>, table: &Table, items: &[Item]) -> Result<(), NoMemory>
    ensures { OnOk result (out.new.items ≡ out.old.items ++ items_text (table_text table.now) items.now) }
{
    for item in items {
        put_item(out, table, item)?;
    }
    Ok(())
}
