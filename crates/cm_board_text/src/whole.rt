// The lines of a block together: the rows that are laid out for it, and what holds without a line.
ghost use Rattle.std.specs.Prelude.{◌≡◌, ◌++◌, ◌∷◌, [], IfOk, OnOk, if◌then◌else◌, map};
ghost use Rattle.cm_base.specs.Reading.{seen};
ghost use Rattle.cm_board.specs.Slots.{default_of, filled, lacks, of_row, slots_from, takes, whole};
ghost use Rattle.cm_board.specs.Table as table;
ghost use Rattle.cm_board.specs.Table.{table_text};
ghost use Rattle.cm_board_text.specs.Reading.{completed};

use crate::tally::Tally;
use cm_base::faults::Fault;
use cm_board::items::Item;
use cm_board::table::{Absent, Head, Place, Row, Table, Value};
use std::alloc::{AllocError, Global};

// A row that no line has.
fn no_row() -> Row
    ensures { result ≡ table.no_row }
{
    Row {
        most: 0,
        wide: 0,
        since: 0,
        place: Place::Any,
        absent: Absent::Nothing,
        of_channel: false,
    }
}

// A row as it is laid out for a channel, or for the subdevice as a whole.
fn laid_row(row: &Row, of_channel: bool) -> Row
    ensures { result ≡ (if of_channel then table.channel_row else table.own_row) row.now }
{
    if row.of_channel == of_channel {
        *row
    } else {
        no_row()
    }
}

// Adds the rows of a channel, or those of the subdevice as a whole.
fn put_rows(laid: &mut Vec<Row>, rows: &[Row], of_channel: bool) -> Result<(), AllocError>
    ensures { OnOk result (laid.new.items ≡ laid.old.items ++ map (if of_channel then table.channel_row else table.own_row) rows.now) }
{
    for row in rows {
        laid.push(laid_row(row, of_channel))?;
    }
    Ok(())
}

// The rows laid out for a block in the order in which lines are printed.
fn lay_out(alloc: Global, channels: u32, rows: &[Row]) -> Result<Vec<Row>, AllocError>
    ensures { IfOk result (λ laid. laid.items ≡ table.laid channels rows.now) }
{
    let mut laid = Vec::new(alloc);
    put_rows(&mut laid, rows, false)?;
    for _ in 0..channels {
        put_rows(&mut laid, rows, true)?;
    }
    Ok(laid)
}

// Whether a block has a line of commands.
fn takes(rows: &[Row], lines: &Tally) -> bool
    ensures { result ≡ takes (slots_from 0 rows.now lines.now) }
{
    let mut at = 0;
    for row in rows {
        if row.is_command() && lines.count(at) != 0 {
            return true;
        }
        at += 1;
    }
    false
}

// Whether a needed line is missing.
fn lacks(rows: &[Row], head: &Head, takes: bool, lines: &Tally) -> bool
    ensures { result ≡ lacks head.now takes (slots_from 0 rows.now lines.now) }
{
    let mut at = 0;
    for row in rows {
        if row.is_needed(head, takes) && lines.count(at) == 0 {
            return true;
        }
        at += 1;
    }
    false
}

// Adds a line of a form with these values.
fn put_line(
    out: &mut Vec<Item>,
    alloc: Global,
    row: usize,
    form: usize,
    values: &[Value],
) -> Result<(), AllocError>
    ensures { OnOk result (out.new.items ≡ out.old.items ++ record { row = row; form = form; values = values.now } ∷ []) }
{
    let item = Item::new(alloc, row, form, values)?;
    Ok(out.push(item)?)
}

// The lines of one row after others.
fn copy(out: &mut Vec<Item>, alloc: Global, items: &[Item], at: usize) -> Result<(), AllocError>
    ensures { OnOk result (out.new.items ≡ out.old.items ++ of_row at items.now) }
{
    for item in items {
        if item.row == at {
            put_line(out, alloc, item.row, item.form, item.values.as_slice())?;
        }
    }
    Ok(())
}

// The lines of a row, or the one that holds without them, after others.
fn fill(
    out: &mut Vec<Item>,
    alloc: Global,
    head: &Head,
    takes: bool,
    at: usize,
    row: &Row,
    lines: &Tally,
) -> Result<(), AllocError>
    ensures { OnOk result (out.new.items ≡ out.old.items ++ filled head.now takes (record { at = at; row = row.now; items = of_row at lines.now })) }
{
    if lines.count(at) != 0 {
        copy(out, alloc, lines.items(), at)
    } else if row.may_stand(head) && (takes || !row.is_command()) {
        put_default(out, alloc, at, row.absent)
    } else {
        Ok(())
    }
}

// The line that holds where none stands, after others.
fn put_default(
    out: &mut Vec<Item>,
    alloc: Global,
    at: usize,
    absent: Absent,
) -> Result<(), AllocError>
    ensures { OnOk result (out.new.items ≡ out.old.items ++ default_of at absent) }
{
    match absent {
        Absent::Stands(form) => put_line(out, alloc, at, form, &[]),
        Absent::Says(form, number) => put_line(out, alloc, at, form, &[Value::Number(number)]),
        _ => Ok(()),
    }
}

// The lines of a block in the order of its rows, with those that hold without standing there.
fn whole(
    alloc: Global,
    rows: &[Row],
    head: &Head,
    takes: bool,
    lines: &Tally,
) -> Result<Vec<Item>, AllocError>
    ensures { IfOk result (λ all. all.items ≡ whole head.now takes (slots_from 0 rows.now lines.now)) }
{
    let mut all = Vec::new(alloc);
    let mut at = 0;
    for row in rows {
        fill(&mut all, alloc, head, takes, at, row, lines)?;
        at += 1;
    }
    Ok(all)
}

/// What the lines of a block say at its end: those that hold without standing there are among them.
pub(crate) fn complete(
    alloc: Global,
    table: &Table,
    head: &Head,
    lines: &Tally,
) -> Result<Result<Vec<Item>, Fault>, AllocError>
    ensures { IfOk result (λ r. seen (λ all. all.items) r ≡ completed (table_text table.now) head.now lines.now) }
{
    let laid = lay_out(alloc, head.channels, table.rows)?;
    let rows: &[Row] = &laid;
    let takes = takes(rows, lines);
    if lacks(rows, head, takes, lines) {
        Ok(Err(Fault::Missing))
    } else {
        Ok(Ok(whole(alloc, rows, head, takes, lines)?))
    }
}
