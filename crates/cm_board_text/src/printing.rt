// A board, written as text.
ghost use Rattle.std.specs.Prelude.{◌≡◌, ◌++◌, ◌∷◌, [], codes, flat_map, IfOk, OnOk, decimal};
ghost use Rattle.std.specs.List.{All};
ghost use Rattle.cm_base.specs.WrittenLines.{written_line};
ghost use Rattle.cm_board.specs.Board.{IsSaidSub};
ghost use Rattle.cm_board_text.specs.PrintedReads.{ReadsAs};
ghost use Rattle.cm_board_text.specs.Printed.{block_text, kind_text, name_line, printed_board, version_line};

use crate::line_text::put_items;
use cm_base::numbers::put_u64;
use cm_base::transfer::NoMemory;
use cm_board::board::{BoardDesc, Kind, Sub};
use cm_board::lines::board_table;
use cm_board::versions::is_wide;
use std::alloc::Global;

/// The board part of a text in its one form: the lines of each block in a fixed order, those with
/// defaults among them. With a `signals` line after it, it is read as the same board.
pub fn print_board(alloc: Global, board: &BoardDesc) -> Result<Vec<u8>, NoMemory>
    ensures text { IfOk result (λ text. text.items ≡ printed_board board.now) }
    ensures reads { IfOk result (λ text. ReadsAs board.now text.items) }
{
    let mut out = Vec::new(alloc);
    put_version(&mut out, board.version)?;
    put_name(&mut out, &board.name)?;
    put_subs(&mut out, &board.subs)?;
    Ok(out)
}

// The line of the version; the third is the first of the wider texts.
fn put_version(out: &mut Vec<u8>, version: u32) -> Result<(), NoMemory>
    ensures { OnOk result (out.new.items ≡ out.old.items ++ written_line (version_line version)) }
{
    if is_wide(version) {
        put_one(out, b"zendrouz", 1)
    } else {
        put_one(out, b"comedi", version)
    }
}

// The line of the board's name.
fn put_name(out: &mut Vec<u8>, name: &[u8]) -> Result<(), NoMemory>
    ensures { OnOk result (out.new.items ≡ out.old.items ++ written_line (name_line name.now)) }
{
    out.extend_from_slice(b"board ")?;
    out.extend_from_slice(name)?;
    end_line(out)
}

// The blocks.
fn put_subs(out: &mut Vec<u8>, subs: &[Sub]) -> Result<(), NoMemory>
    ensures text { OnOk result (out.new.items ≡ out.old.items ++ flat_map block_text subs.now) }
    ensures sound { OnOk result (All IsSaidSub subs.now) }
{
    for sub in subs {
        put_sub(out, sub)?;
    }
    Ok(())
}

// One block.
fn put_sub(out: &mut Vec<u8>, sub: &Sub) -> Result<(), NoMemory>
    ensures text { OnOk result (out.new.items ≡ out.old.items ++ block_text sub.now) }
    ensures sound { IsSaidSub sub.now }
{
    put_head(out, sub.kind, sub.channels)?;
    put_items(out, &board_table(), &sub.block)
}

// The first line of a block.
fn put_head(out: &mut Vec<u8>, kind: Kind, channels: u32) -> Result<(), NoMemory>
    ensures { OnOk result (out.new.items ≡ out.old.items ++ written_line (codes "subdevice" ∷ kind_text kind ∷ decimal channels ∷ [])) }
{
    out.extend_from_slice(b"subdevice ")?;
    put_kind(out, kind)?;
    out.push(b' ')?;
    put_u64(out, channels as u64)?;
    end_line(out)
}

// A key and a number.
fn put_one(out: &mut Vec<u8>, key: &[u8], number: u32) -> Result<(), NoMemory>
    ensures { OnOk result (out.new.items ≡ out.old.items ++ written_line (key.now ∷ decimal number ∷ [])) }
{
    out.extend_from_slice(key)?;
    out.push(b' ')?;
    put_u64(out, number as u64)?;
    end_line(out)
}

fn put_kind(out: &mut Vec<u8>, kind: Kind) -> Result<(), NoMemory>
    ensures { OnOk result (out.new.items ≡ out.old.items ++ kind_text kind) }
{
    let name = match kind {
        Kind::Unused => b"unused".as_slice(),
        Kind::Ai => b"ai".as_slice(),
        Kind::Ao => b"ao".as_slice(),
        Kind::Di => b"di".as_slice(),
        Kind::Do => b"do".as_slice(),
        Kind::Dio => b"dio".as_slice(),
    };
    Ok(out.extend_from_slice(name)?)
}

fn end_line(out: &mut Vec<u8>) -> Result<(), NoMemory>
    ensures { OnOk result (out.new.items ≡ out.old.items ++ 10 ∷ []) }
{
    Ok(out.push(b'\n')?)
}
