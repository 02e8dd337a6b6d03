// Layers: a lent table of records, each a cell's 16 bytes and what is kept of it, strictly ascending by cell, and a count of those in use.
// A flag record has 20 bytes, a value record 24; what follows is said once, over the width.
#![tactic(auto)]

ghost use Rattle.std.specs.Prelude.{true, ◌≡◌, ◌+◌, ◌*◌, ◌≤◌, length};
ghost use Rattle.table.specs.Records.{room_for, row_at, rows_of, held_of, first_fall, is_sound};
ghost use Rattle.table.specs.Inner.Places.{Wide, Stands};

pub mod flags;
pub mod moves;
pub mod records;

use refusal::{Cell, Refusal};

// The bytes of a flag record: a cell and 32 bits.
pub const FLAG_WIDTH: usize = 20;

// The bytes of a value record: a cell and 64 bits.
pub const VALUE_WIDTH: usize = 24;

// The most cells that a layer may have, whatever its table.
pub const MOST_CELLS: usize = 1024;

// The bytes of the largest table of each kind.
pub const MOST_FLAG_BYTES: usize = FLAG_WIDTH * MOST_CELLS;

pub const MOST_VALUE_BYTES: usize = VALUE_WIDTH * MOST_CELLS;

// How many records a table has room for.
pub fn room_for(table: &[u8], width: usize) -> usize
    requires { Wide width }
    ensures { result ≡ room_for width table.now }
{
    MOST_CELLS.min(table.len() / width)
}

// The index of the first record whose cell is not above that of the one before it, and `count` where there is none; each cell is read once.
// Not inlined: within a survey's load the loop would keep the two cells on the stack, and take half as long again.
#[inline(never)]
pub fn first_fall(table: &[u8], width: usize, count: usize) -> usize
    requires wide { Wide width }
    requires count_in_bounds { width * count ≤ length table.now }
    ensures { result ≡ first_fall (rows_of width table.now count) }
{
    if count == 0 {
        return 0;
    }
    let mut last = cell::read_at(table, 0);
    for i in 1..count {
        let next = cell::read_at(table, width * i);
        if !cell::less(last, next) {
            return i;
        }
        last = next;
    }
    count
}

// Whether the count and the order are those of a layer.
pub fn is_sound(table: &[u8], width: usize, count: usize) -> bool
    requires { Wide width }
    ensures { result ≡ is_sound width table.now count }
{
    count <= room_for(table, width) && first_fall(table, width, count) == count
}

// A cell's place among the records of a sound layer, by halves.
pub fn find(table: &[u8], width: usize, count: usize, c: Cell) -> Result<usize, usize>
    requires wide { Wide width }
    requires count_value { is_sound width table.now count ≡ true }
    ensures { Stands width table.now count c result }
{
    let mut low = 0;
    let mut high = count;
    while low < high {
        let middle = low + (high - low) / 2;
        let here = cell::read_at(table, width * middle);
        if cell::same(here, c) {
            return Ok(middle);
        }
        if cell::less(here, c) {
            low = middle + 1;
        } else {
            high = middle;
        }
    }
    Err(low)
}

// What is kept in a record: 32 bits where it has 20 bytes, 64 where it has 24.
pub fn kept_at(table: &[u8], width: usize, i: usize) -> u64
    requires wide { Wide width }
    requires i_in_bounds { width * (i + 1) ≤ length table.now }
    ensures { result ≡ (row_at width table.now i).kept }
{
    let at = width * i + cell::CELL_WIDTH;
    if width == FLAG_WIDTH {
        return words::read32_big(table, at) as u64;
    }
    words::read64_big(table, at)
}

// What a sound layer keeps of a cell, if anything.
pub fn held(table: &[u8], width: usize, count: usize, c: Cell) -> Option<u64>
    requires wide { Wide width }
    requires count_value { is_sound width table.now count ≡ true }
    ensures { result ≡ held_of c (rows_of width table.now count) }
{
    match find(table, width, count, c) {
        Ok(i) => Some(kept_at(table, width, i)),
        Err(_) => None,
    }
}
