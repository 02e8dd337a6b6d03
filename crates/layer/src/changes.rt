// The calls that change a layer: a cell is set, new or again, or removed. A cell's place is found by halves, and only the records after it move.
ghost use Rattle.std.specs.Prelude.{true, ◌≡◌};
ghost use Rattle.table.specs.Records.{rows_of, is_sound, held_of, with_row, without_cell, keeping, refilled};
ghost use Rattle.table.specs.Inner.Places.{Wide};
ghost use Rattle.general.specs.Changed.{changed};
ghost use Rattle.layer.specs.Changes.{relaid, set_in, remove_in};
ghost use Rattle.layer.specs.Inner.Insert.{Insertable};
ghost use Rattle.layer.specs.Kinds.{width_of, FitsKind};

use crate::width;
use refusal::{Cell, Refusal, Room};

// A new cell at its place in a sound layer, if there is room for one more.
fn insert(
    table: &mut [u8],
    width: usize,
    count: usize,
    i: usize,
    c: Cell,
    kept: u64,
) -> Result<usize, Refusal>
    requires { Insertable width table.old count c i }
    ensures { changed result table.new ≡ relaid width (with_row (keeping c kept) (rows_of width table.old count)) table.old }
{
    if count == table::room_for(table, width) {
        return Err(Refusal::NoRoom(Room::Layer));
    }
    table::moves::open_record(table, width, i, count);
    table::moves::put_record(table, width, i, c, kept);
    Ok(count + 1)
}

// A cell set in a sound layer.
fn set_cell(
    table: &mut [u8],
    width: usize,
    count: usize,
    c: Cell,
    kept: u64,
) -> Result<usize, Refusal>
    requires wide { Wide width }
    requires count_value { is_sound width table.old count ≡ true }
    ensures { changed result table.new ≡ relaid width (with_row (keeping c kept) (rows_of width table.old count)) table.old }
{
    match table::find(table, width, count, c) {
        Ok(i) => {
            table::moves::put_record(table, width, i, c, kept);
            Ok(count)
        }
        Err(i) => insert(table, width, count, i, c, kept),
    }
}

// What is kept of a cell that is given by its 16 bytes from now on; the answer is how many cells the layer has.
#[tactic(auto, unfolding(crate::specs::Changes::set_in))]
pub fn set<const KIND: bool>(
    table: &mut [u8],
    count: usize,
    cell: &[u8],
    kept: u64,
) -> Result<usize, Refusal>
    ensures { changed result table.new ≡ set_in (width_of KIND) table.old count cell.now kept }
{
    let c = cell::from_bytes(cell)?;
    let width = width(KIND);
    if !table::is_sound(table, width, count) {
        return Err(Refusal::BadLayer);
    }
    set_cell(table, width, count, c, kept)
}

// A cell removed from a sound layer; what was kept of it, if anything.
fn remove_cell(table: &mut [u8], width: usize, count: usize, c: Cell) -> Option<u64>
    requires wide { Wide width }
    requires count_value { is_sound width table.old count ≡ true }
    ensures { let t = table.old in
        let rows = rows_of width t count in
        changed result table.new ≡ changed (held_of c rows) (refilled width count (without_cell c rows) t) }
{
    match table::find(table, width, count, c) {
        Ok(i) => {
            let kept = table::kept_at(table, width, i);
            table::moves::close_record(table, width, i, count);
            Some(kept)
        }
        Err(_) => None,
    }
}

// A cell that is given by its 16 bytes removed from a layer; what was kept of it, if anything.
#[tactic(auto, unfolding(crate::specs::Changes::remove_in))]
pub fn remove<const KIND: bool>(
    table: &mut [u8],
    count: usize,
    cell: &[u8],
) -> Result<Option<u64>, Refusal>
    ensures value { changed result table.new ≡ remove_in (width_of KIND) table.old count cell.now }
    ensures fits { FitsKind KIND result }
{
    let c = cell::from_bytes(cell)?;
    let width = width(KIND);
    if !table::is_sound(table, width, count) {
        return Err(Refusal::BadLayer);
    }
    Ok(remove_cell(table, width, count, c))
}
