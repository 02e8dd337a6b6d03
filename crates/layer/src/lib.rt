// The calls on layers: keep something of a cell, look it up, list and remove it. Each is said once, over the kind of a layer.
#![tactic(auto)]

ghost use Rattle.std.specs.Prelude.{◌≡◌};
ghost use Rattle.table.specs.Inner.Places.{Wide};
ghost use Rattle.layer.specs.Kinds.{width_of, FitsKind};
ghost use Rattle.layer.specs.Calls.{held_in, of_contains, count_in};
ghost use Rattle.general.specs.Changed.{changed};
ghost use Rattle.layer.specs.Changes.{clear_in, list_in, empty_in};

pub mod changes;

use refusal::{Refusal, Room};

// The two kinds of layers: what a record keeps of its cell is 32 bits of flags, or the 64 bits of a value.
pub const FLAGS: bool = false;

pub const VALUES: bool = true;

// The bytes of a record of a kind of layer.
fn width(kind: bool) -> usize
    ensures value { result ≡ width_of kind }
    ensures wide { Wide result }
{
    if kind == VALUES {
        table::VALUE_WIDTH
    } else {
        table::FLAG_WIDTH
    }
}

// What a layer keeps of a cell that is given by its 16 bytes, if anything.
#[tactic(auto, unfolding(crate::specs::Calls::held_in))]
pub fn get<const KIND: bool>(
    table: &[u8],
    count: usize,
    cell: &[u8],
) -> Result<Option<u64>, Refusal>
    ensures value { result ≡ held_in (width_of KIND) table.now count cell.now }
    ensures fits { FitsKind KIND result }
{
    let c = cell::from_bytes(cell)?;
    let width = width(KIND);
    if !table::is_sound(table, width, count) {
        return Err(Refusal::BadLayer);
    }
    Ok(table::held(table, width, count, c))
}

// Whether a layer keeps anything of a cell.
pub fn contains<const KIND: bool>(table: &[u8], count: usize, cell: &[u8]) -> Result<bool, Refusal>
    ensures { result ≡ of_contains (held_in (width_of KIND) table.now count cell.now) }
{
    Ok(get::<KIND>(table, count, cell)?.is_some())
}

// How many cells a layer has.
#[tactic(auto, unfolding(crate::specs::Calls::count_in))]
pub fn count<const KIND: bool>(table: &[u8], count: usize) -> Result<usize, Refusal>
    ensures { result ≡ count_in (width_of KIND) table.now count }
{
    if table::is_sound(table, width(KIND), count) {
        Ok(count)
    } else {
        Err(Refusal::BadLayer)
    }
}

// Whether a layer has no cells.
#[tactic(auto, unfolding(crate::specs::Calls::count_in, crate::specs::Changes::empty_in))]
pub fn is_empty<const KIND: bool>(table: &[u8], count: usize) -> Result<bool, Refusal>
    ensures { result ≡ empty_in (width_of KIND) table.now count }
{
    Ok(crate::count::<KIND>(table, count)? == 0)
}

// Zeros in every whole record within the limit; what is left of the table stays.
pub fn clear<const KIND: bool>(table: &mut [u8])
    ensures { table.new ≡ clear_in (width_of KIND) table.old }
{
    let width = width(KIND);
    let room = table::room_for(table, width);
    words::bytes::zero(table, 0, width * room);
}

// The records of a layer, at the front of what is lent for them, and how many they are.
#[tactic(auto, unfolding(crate::specs::Changes::list_in))]
pub fn list<const KIND: bool>(table: &[u8], count: usize, out: &mut [u8]) -> Result<usize, Refusal>
    ensures { changed result out.new ≡ list_in (width_of KIND) table.now count out.old }
{
    let record_width = width(KIND);
    if !table::is_sound(table, record_width, count) {
        return Err(Refusal::BadLayer);
    }
    let size = record_width * count;
    if size > out.len() {
        return Err(Refusal::NoRoom(Room::Output));
    }
    words::bytes::copy_front(out, table, size);
    Ok(count)
}
