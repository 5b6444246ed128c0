// The lines of a block, read by a table: the form of each, and what its words say.
ghost use Rattle.std.specs.Prelude.{◌≡◌, ◌≤◌, ◌+◌, ◌*◌, [], length, map};
ghost use Rattle.std.specs.List.{list_any};
ghost use Rattle.std.specs.Option.{option_map};
ghost use Rattle.cm_base.specs.LineView.{line_view};
ghost use Rattle.cm_base.specs.ReadStop.{Gives};
ghost use Rattle.cm_base.specs.Reading.{at_line, seen};
ghost use Rattle.cm_base.specs.Words.{number_in, or_fault, sources_in};
ghost use Rattle.cm_base.specs.declared.faults.Fault.TheVariants as faults;
ghost use Rattle.cm_board.specs.Kept.{set_in};
ghost use Rattle.cm_board.specs.Slots.{of_row};
ghost use Rattle.cm_board.specs.Table as table;
ghost use Rattle.cm_board.specs.Table.{form_text, may_stand, row_at, table_text, word_text};
ghost use Rattle.cm_board.specs.Versions.{most_in};
ghost use Rattle.cm_board_text.specs.FoundView.{found_text};
ghost use Rattle.cm_board_text.specs.Reading.{admitted, begins_form, fixed_is, form_of, form_of_words, found_from, is_begun, is_form, item_after, items_said, more_said, number_said, place_from, plain_word, read_word, values_after, word_after};

use crate::divisors::read_divisors;
use crate::tally::Tally;
use cm_base::faults::{Fault, ReadStop};
use cm_base::lines::Line;
use cm_base::words::{at_line, number_below, number_in, signed_number, source_in, sources_in};
use cm_board::items::Item;
use cm_board::table::{Absent, Form, Head, Limits, Place, Row, Sets, Table, Value, Word};
use cm_board::versions::is_wide;
use smallvec::SmallVec;
use std::alloc::{AllocError, Global};

// The row at a place.
#[tactic(auto, using(crate::proofs::TableAt::row_is, crate::proofs::TableAt::no_row_is))]
pub(crate) fn row_at(rows: &[Row], at: usize) -> Row
    ensures { result ≡ row_at at rows.now }
{
    if at < rows.len() {
        rows[at]
    } else {
        Row {
            most: 0,
            wide: 0,
            since: 0,
            place: Place::Any,
            absent: Absent::Nothing,
            of_channel: false,
        }
    }
}

// Whether a word is one that stands where a form fixes it.
fn fixed_is(kind: &Word, word: &[u8]) -> bool
    ensures { result ≡ fixed_is (word_text kind.now) word.now }
{
    match kind {
        Word::Fixed(key) => word == *key,
        _ => true,
    }
}

// Whether a line has those words that a form fixes, as far as both go.
fn begins_form(kinds: &[Word], words: &[&[u8]]) -> bool
    ensures { result ≡ begins_form (map word_text kinds.now) (map (λ word. word.now) words.now) }
{
    match (kinds, words) {
        ([], _) => true,
        ([_kind, _kinds @ ..], []) => true,
        ([kind, kinds @ ..], [word, words @ ..]) => {
            fixed_is(kind, word) && begins_form(kinds, words)
        }
    }
}

// Whether a line is of a form: as many words, and all that the form fixes.
fn is_form(kinds: &[Word], words: &[&[u8]]) -> bool
    ensures { result ≡ is_form (map word_text kinds.now) (map (λ word. word.now) words.now) }
{
    words.len() == kinds.len() && begins_form(kinds, words)
}

// Whether a form may stand in the block.
fn may_stand(rows: &[Row], head: &Head, form: &Form) -> bool
    ensures { result ≡ may_stand head.now (row_at form.now.row rows.now) }
{
    row_at(rows, form.row).may_stand(head)
}

// The first form of these words that may stand in the block, and its place.
fn find(table: &Table, head: &Head, words: &[&[u8]]) -> Option<(usize, Form)>
    ensures { option_map found_text result ≡ found_from table.now.rows.now head.now (map (λ word. word.now) words.now) 0 (map form_text table.now.forms.now) }
{
    let mut at = 0;
    for form in table.forms {
        if is_form(form.words, words) && may_stand(table.rows, head, form) {
            return Some((at, *form));
        }
        at += 1;
    }
    None
}

// Whether the words begin a form that may stand in the block.
fn is_begun(table: &Table, head: &Head, words: &[&[u8]]) -> bool
    ensures { result ≡ list_any (is_begun table.now.rows.now head.now (map (λ word. word.now) words.now)) (map form_text table.now.forms.now) }
{
    for form in table.forms {
        if begins_form(form.words, words) && may_stand(table.rows, head, form) {
            return true;
        }
    }
    false
}

// The form of these words. Where they only begin one, words are missing or too many.
fn form_of_words(table: &Table, head: &Head, words: &[&[u8]]) -> Result<(usize, Form), Fault>
    ensures { seen found_text result ≡ form_of_words (table_text table.now) head.now (map (λ word. word.now) words.now) }
{
    match find(table, head, words) {
        Some(found) => Ok(found),
        None => {
            if is_begun(table, head, words) {
                Err(Fault::BadLine)
            } else {
                Err(Fault::Unknown)
            }
        }
    }
}

// The form of a line.
fn form_of(table: &Table, head: &Head, line: &Line<'_>) -> Result<(usize, Form), Fault>
    ensures { seen found_text result ≡ form_of (table_text table.now) head.now (line_view line.now) }
{
    if line.bad {
        Err(Fault::BadLine)
    } else {
        form_of_words(table, head, &line.words)
    }
}

// The place of a name among others.
fn name_place(names: &[&[u8]], word: &[u8]) -> Option<usize>
    ensures { result ≡ place_from 0 word.now (map (λ name. name.now) names.now) }
{
    let mut place = 0;
    for name in names {
        if word == *name {
            return Some(place);
        }
        place += 1;
    }
    None
}

// The name's place.
fn read_name(names: &[&[u8]], word: &[u8]) -> Result<usize, Fault>
    ensures { result ≡ or_fault faults.Unknown (place_from 0 word.now (map (λ name. name.now) names.now)) }
{
    match name_place(names, word) {
        Some(place) => Ok(place),
        None => Err(Fault::Unknown),
    }
}

// The sources that a word may have on a board of a version.
fn set_in(version: u32, sets: &Sets) -> u32
    ensures { result ≡ set_in version sets.now }
{
    if is_wide(version) {
        sets.wide
    } else if 2 <= version {
        sets.second
    } else {
        sets.first
    }
}

// The number that a word says.
fn read_number(head: &Head, limits: &Limits, word: &[u8]) -> Result<u32, Fault>
    ensures { result ≡ number_in limits.now.least (most_in head.now.version limits.now.most limits.now.wide) word.now }
{
    number_in(word, limits.least, limits.most_in(head.version))
}

// The sources that a word says.
fn read_sources(head: &Head, sets: &Sets, word: &[u8]) -> Result<u32, Fault>
    ensures { result ≡ sources_in (set_in head.now.version sets.now) word.now }
{
    sources_in(word, set_in(head.version, sets))
}

// A number that is said.
fn number_said(read: Result<u32, Fault>) -> Result<Option<Value>, Fault>
    ensures { result ≡ number_said read }
{
    match read {
        Ok(number) => Ok(Some(Value::Number(number))),
        Err(fault) => Err(fault),
    }
}

// What a word says that is no divisors.
fn plain_word(head: &Head, kind: &Word, word: &[u8]) -> Result<Option<Value>, Fault>
    ensures { result ≡ plain_word head.now (word_text kind.now) word.now }
{
    match kind {
        Word::Number(limits) => number_said(read_number(head, limits, word)),
        Word::Signed => Ok(Some(Value::Signed(signed_number(word)?))),
        Word::Sources(sets) => number_said(read_sources(head, sets, word)),
        Word::Source => number_said(source_in(word, 511)),
        Word::Name(names) => Ok(Some(Value::Name(read_name(names, word)?))),
        Word::Channel => number_said(number_below(word, head.channels)),
        Word::Fixed(_) | Word::Divisors => Ok(None),
    }
}

// What a word of the line with this number says.
fn read_word(
    alloc: Global,
    line: u32,
    head: &Head,
    kind: &Word,
    word: &[u8],
) -> Result<Option<Value>, ReadStop>
    ensures { Gives (λ value. value) result (at_line line (read_word head.now (word_text kind.now) word.now)) }
{
    match kind {
        Word::Divisors => Ok(Some(Value::Divisors(read_divisors(alloc, line, word)?))),
        _ => at_line(line, plain_word(head, kind, word)),
    }
}

// Adds what a word of the line with this number says to what the words before it say.
fn push_word(
    alloc: Global,
    line: u32,
    head: &Head,
    values: &mut SmallVec<Value, 4>,
    kind: &Word,
    word: &[u8],
) -> Result<(), ReadStop>
    ensures { Gives (λ u. values.new.items) result (at_line line (word_after head.now values.old.items (word_text kind.now) word.now)) }
{
    match read_word(alloc, line, head, kind, word)? {
        Some(value) => Ok(values.push(value)?),
        None => Ok(()),
    }
}

// What the words of the line with this number say.
fn read_values(
    alloc: Global,
    line: u32,
    head: &Head,
    kinds: &[Word],
    words: &[&[u8]],
) -> Result<SmallVec<Value, 4>, ReadStop>
    requires { length words.now ≡ length kinds.now }
    ensures { Gives (λ values. values.items) result (at_line line (values_after head.now [] (map word_text kinds.now) (map (λ word. word.now) words.now))) }
{
    let mut values = SmallVec::new(alloc);
    let mut at = 0;
    for word in words {
        push_word(alloc, line, head, &mut values, &kinds[at], word)?;
        at += 1;
    }
    Ok(values)
}

// The channel of a line about one.
fn channel_of(values: &[Value]) -> u32
    ensures { result ≡ table.channel_of values.now }
{
    match values {
        [Value::Number(chan), ..] => *chan,
        _ => 0,
    }
}

// The place of a line's row among those that are laid out for the block.
fn place_of(rows: &[Row], form: &Form, values: &[Value]) -> usize
    requires { length rows.now ≤ 1000 }
    ensures { result ≡ table.place_of rows.now (form_text form.now) values.now }
{
    if form.row < rows.len() && rows[form.row].of_channel {
        (channel_of(values) as usize + 1) * rows.len() + form.row
    } else {
        form.row
    }
}

// The place of a line more in the block, where it may stand there with these values.
fn admit(
    head: &Head,
    rows: &[Row],
    before: &Tally,
    at: usize,
    form: &Form,
    values: &[Value],
) -> Result<usize, Fault>
    requires { length rows.now ≤ 1000 }
    ensures { seen (λ row. record { row = row; form = at; values = values.now }) result ≡ admitted head.now rows.now before.now (found_text (at, form.now)) values.now }
{
    let most = row_at(rows, form.row).most_in(head.version);
    let place = place_of(rows, form, values);
    if before.count(place) < most as usize {
        if form.rule.is_kept(values) {
            Ok(place)
        } else {
            Err(Fault::Bad)
        }
    } else if most == 1 {
        Err(Fault::Double)
    } else {
        Err(Fault::Limit)
    }
}

// What a line says after the lines before it.
fn read_item(
    alloc: Global,
    table: &Table,
    head: &Head,
    before: &Tally,
    line: &Line<'_>,
) -> Result<Item, ReadStop>
    requires { length table.now.rows.now ≤ 1000 }
    ensures { Gives (λ item. item) result (at_line line.now.number (item_after (table_text table.now) head.now before.now (line_view line.now))) }
{
    let number = line.number;
    let (at, form) = at_line(number, form_of(table, head, line))?;
    let values = read_values(alloc, number, head, form.words, &line.words)?;
    let row = at_line(
        number,
        admit(head, table.rows, before, at, &form, values.as_slice()),
    )?;
    Ok(Item {
        row,
        form: at,
        values,
    })
}

// How many rows are laid out for a block.
fn laid_len(channels: u32, rows: &[Row]) -> usize
    requires { length rows.now ≤ 1000 }
    ensures { result ≡ (channels + 1) * length rows.now }
{
    (channels as usize + 1) * rows.len()
}

// Adds what a line says to what the lines before it say.
fn add_line(
    alloc: Global,
    table: &Table,
    head: &Head,
    said: &mut Tally,
    line: &Line<'_>,
) -> Result<(), ReadStop>
    requires { length table.now.rows.now ≤ 1000 }
    ensures { Gives (λ u. said.new) result (more_said (table_text table.now) head.now said.old (line_view line.now)) }
{
    let item = read_item(alloc, table, head, said, line)?;
    Ok(said.push(item)?)
}

/// What the lines of a block say, or the first line that fails.
pub(crate) fn read_items(
    alloc: Global,
    table: &Table,
    head: &Head,
    lines: &[Line<'_>],
) -> Result<Tally, ReadStop>
    requires { length table.now.rows.now ≤ 1000 }
    ensures { Gives (λ said. said) result (items_said (table_text table.now) head.now (map line_view lines.now)) }
{
    let mut said = Tally::new(alloc, laid_len(head.channels, table.rows))?;
    for line in lines {
        add_line(alloc, table, head, &mut said, line)?;
    }
    Ok(said)
}
