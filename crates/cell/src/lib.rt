// The packed cell: 128 bits that name a frame, a resolution and a place of the lattice, with an exponent and flags.
#![tactic(auto)]

ghost use Rattle.std.specs.Prelude.{◌≡◌, map, ◌+◌, ◌≤◌, length};
ghost use Rattle.lattice.specs.Lattice.{at};
ghost use Rattle.cell.specs.Bytes.{cell_at, cell_bytes, from_bytes_of, cell_width};
ghost use Rattle.cell.specs.Inner.Bytes.{cell_stored};
ghost use Rattle.cell.specs.Cell.{frame_of, resolution_of, exponent_of, flags_of, reserved_of, x_of, y_of, z_of, coord_of, packed, new_of};
ghost use Rattle.cell.specs.Cell.{lattice_coord_of, is_plain, same_cell, less_cell, order_of, plain_at, neighbors_of};
ghost use Rattle.cell.specs.Cell.{children_of, parent_of, ancestor_of, between_of, manhattan_cells, distance_cells};

pub mod twos;

use refusal::{Cell, Coord, Refusal};
use std::cmp::Ordering;

// The bytes of a cell.
pub const CELL_WIDTH: usize = 16;

// The coordinate reference system.
pub fn frame(c: Cell) -> u8
    ensures { result ≡ frame_of c }
{
    (c.low % 256) as u8
}

// The level of detail, higher is finer.
pub fn resolution(c: Cell) -> u8
    ensures { result ≡ resolution_of c }
{
    (c.low / 256 % 256) as u8
}

// The scale factor, 0 to 15.
pub fn exponent(c: Cell) -> u8
    ensures { result ≡ exponent_of c }
{
    (c.low / 65536 % 16) as u8
}

// What is marked of the cell, a bit each.
pub fn flags(c: Cell) -> u8
    ensures { result ≡ flags_of c }
{
    (c.low / 1048576 % 256) as u8
}

// Four bits that no call sets.
pub fn reserved(c: Cell) -> u8
    ensures { result ≡ reserved_of c }
{
    (c.low / 268435456 % 16) as u8
}

// The coordinates, in two's complement.
pub fn x(c: Cell) -> i32
    ensures { result ≡ x_of c }
{
    twos::of_bits((c.low / 4294967296) as u32)
}

pub fn y(c: Cell) -> i32
    ensures { result ≡ y_of c }
{
    twos::of_bits((c.high % 4294967296) as u32)
}

pub fn z(c: Cell) -> i32
    ensures { result ≡ z_of c }
{
    twos::of_bits((c.high / 4294967296) as u32)
}

// The place that a cell names, whether or not it is a lattice point.
pub fn coord(c: Cell) -> Coord
    ensures { result ≡ coord_of c }
{
    Coord {
        x: x(c),
        y: y(c),
        z: z(c),
    }
}

// The cell of these fields: of the exponent the lower four bits are kept, and nothing is reserved.
pub fn packed(frame: u8, resolution: u8, c: Coord, exponent: u8, flags: u8) -> Cell
    ensures { result ≡ packed frame resolution c exponent flags }
{
    let x = twos::bits_of(c.x) as u64;
    let y = twos::bits_of(c.y) as u64;
    let z = twos::bits_of(c.z) as u64;
    let kept = (exponent % 16) as u64;
    Cell {
        high: z * 4294967296 + y,
        low: (((x * 16 * 256 + flags as u64) * 16 + kept) * 256 + resolution as u64) * 256
            + frame as u64,
    }
}

// The plain cell at a place.
fn plain(frame: u8, resolution: u8, c: Coord) -> Cell
    ensures { result ≡ plain_at frame resolution c }
{
    packed(frame, resolution, c, 0, 0)
}

#[tactic(auto, unfolding(crate::specs::Cell::new_of))]
fn new_at(frame: u8, resolution: u8, c: Coord, exponent: u8, flags: u8) -> Result<Cell, Refusal>
    ensures { result ≡ new_of frame resolution c exponent flags }
{
    lattice::parity_of(c)?; // before a cell is made
    Ok(packed(frame, resolution, c, exponent, flags))
}

// The cell of these fields, refused where the place is no lattice point.
pub fn new(
    frame: u8,
    resolution: u8,
    x: i32,
    y: i32,
    z: i32,
    exponent: u8,
    flags: u8,
) -> Result<Cell, Refusal>
    ensures { result ≡ new_of frame resolution (at x y z) exponent flags }
{
    new_at(frame, resolution, Coord { x, y, z }, exponent, flags)
}

// The plain cell at three coordinates, refused where they are no lattice point.
pub fn from_coords(frame: u8, resolution: u8, x: i32, y: i32, z: i32) -> Result<Cell, Refusal>
    ensures { result ≡ new_of frame resolution (at x y z) 0 0 }
{
    new(frame, resolution, x, y, z, 0, 0)
}

// The plain cell at a place, refused where it is no lattice point.
pub fn from_lattice_coord(frame: u8, resolution: u8, c: Coord) -> Result<Cell, Refusal>
    ensures { result ≡ new_of frame resolution c 0 0 }
{
    new_at(frame, resolution, c, 0, 0)
}

// The place that a cell names, refused where it is no lattice point.
#[tactic(auto, unfolding(crate::specs::Cell::lattice_coord_of))]
pub fn lattice_coord(c: Cell) -> Result<Coord, Refusal>
    ensures { result ≡ lattice_coord_of c }
{
    let place = coord(c);
    lattice::parity_of(place)?; // before it is handed out
    Ok(place)
}

// Exponent, flags and reserved are zero.
#[tactic(auto, unfolding(crate::specs::Cell::is_plain))]
pub fn is_plain(c: Cell) -> bool
    ensures { result ≡ is_plain c }
{
    exponent(c) == 0 && flags(c) == 0 && reserved(c) == 0
}

// Equal in all 128 bits.
pub fn same(a: Cell, b: Cell) -> bool
    ensures { result ≡ same_cell a b }
{
    a == b
}

// Below in the order of the 128 bits as one number.
pub fn less(a: Cell, b: Cell) -> bool
    ensures { result ≡ less_cell a b }
{
    a < b
}

// The order of the 128 bits as one number.
pub fn compare(a: Cell, b: Cell) -> Ordering
    ensures { result ≡ order_of a b }
{
    a.cmp(&b)
}

const NO_CELL: Cell = Cell { high: 0, low: 0 };

// The plain cells at some places.
fn plain_all<const N: usize>(frame: u8, resolution: u8, places: [Coord; N]) -> [Cell; N]
    ensures { result ≡ map (plain_at frame resolution) places.entry }
{
    let mut cells = [NO_CELL; N];
    for (i, place) in places.iter().enumerate() {
        cells[i] = plain(frame, resolution, *place);
    }
    cells
}

// The 14 plain cells around a cell, of its frame and resolution, in the table's order. Parity first, then room.
#[tactic(auto, unfolding(crate::specs::Cell::neighbors_of))]
pub fn get_neighbors(c: Cell) -> Result<[Cell; 14], Refusal>
    ensures { result ≡ neighbors_of c }
{
    let places = lattice::get_neighbors(coord(c))?;
    Ok(plain_all(frame(c), resolution(c), places))
}

// The 8 plain cells below a cell, one resolution finer, in the table's order. The finest has none; then parity, then room.
pub fn get_children(c: Cell) -> Result<[Cell; 8], Refusal>
    ensures { result ≡ children_of c }
{
    let level = resolution(c);
    if level == 255 {
        return Err(Refusal::NoChildren);
    }
    let places = lattice::get_children(coord(c))?;
    Ok(plain_all(frame(c), level + 1, places))
}

// The plain cell above a cell, one resolution coarser. The coarsest has none; then parity.
#[tactic(auto, unfolding(crate::specs::Cell::parent_of))]
pub fn parent(c: Cell) -> Result<Cell, Refusal>
    ensures { result ≡ parent_of c }
{
    let level = resolution(c);
    if level == 0 {
        return Err(Refusal::NoParent);
    }
    let place = lattice::get_parent(coord(c))?;
    Ok(plain(frame(c), level - 1, place))
}

// The parent of the parent, until the target's resolution is reached. A finer target is refused; a cell's own gives the cell.
pub fn ancestor(c: Cell, target: u8) -> Result<Cell, Refusal>
    ensures { result ≡ ancestor_of c target }
{
    if resolution(c) < target {
        return Err(Refusal::NoParent);
    }
    let mut up = c;
    while target < resolution(up) {
        up = parent(up)?;
    }
    Ok(up)
}

// Nothing between cells of two resolutions or two parities; else it is only asked whether they are too far apart.
#[tactic(auto, unfolding(crate::specs::Cell::between_of, lattice::specs::Lattice::manhattan_of))]
pub fn cell_between(a: Cell, b: Cell) -> Result<(), Refusal>
    ensures { result ≡ between_of a b }
{
    if resolution(a) != resolution(b) {
        return Ok(());
    }
    let here = coord(a);
    let there = coord(b);
    let first = lattice::parity_of(here)?;
    let second = lattice::parity_of(there)?;
    if first == second {
        lattice::manhattan_distance_to(there, here)?; // nothing between, but perhaps too far apart
    }
    Ok(())
}

// The Manhattan distance of two cells is that of their places.
pub fn manhattan_distance_to(a: Cell, b: Cell) -> Result<i32, Refusal>
    ensures { result ≡ manhattan_cells a b }
{
    lattice::manhattan_distance_to(coord(a), coord(b))
}

// The Euclidean distance of two cells is that of their places.
pub fn distance_to(a: Cell, b: Cell) -> Result<f64, Refusal>
    ensures { result ≡ distance_cells a b }
{
    distance::distance_to(coord(a), coord(b))
}

// The cell that the 16 bytes at `at` make.
pub fn read_at(s: &[u8], at: usize) -> Cell
    requires { at + cell_width ≤ length s.now }
    ensures { result ≡ cell_at s.now at }
{
    Cell {
        high: words::read64_big(s, at),
        low: words::read64_big(s, at + 8),
    }
}

// Stores a cell's 16 bytes at `at`.
pub fn write_at(s: &mut [u8], at: usize, c: Cell)
    requires { at + cell_width ≤ length s.old }
    ensures { s.new ≡ cell_stored s.old at c }
{
    words::write64_big(s, at, c.high);
    words::write64_big(s, at + 8, c.low);
}

// A cell's 16 bytes, the highest first.
pub fn to_bytes(c: Cell) -> [u8; CELL_WIDTH]
    ensures { result ≡ cell_bytes c }
{
    let mut bytes = [0u8; CELL_WIDTH];
    write_at(&mut bytes, 0, c);
    bytes
}

// The cell of 16 bytes, whatever they are.
#[tactic(auto, unfolding(crate::specs::Bytes::from_bytes_of))]
pub fn from_bytes(s: &[u8]) -> Result<Cell, Refusal>
    ensures { result ≡ from_bytes_of s.now }
{
    if s.len() == CELL_WIDTH {
        Ok(read_at(s, 0))
    } else {
        Err(Refusal::BadList)
    }
}
