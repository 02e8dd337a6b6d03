// Cells for C: a cell is its 16 bytes, and another length is refused before anything else.
ghost use Rattle.std.specs.Prelude.{◌≡◌, ◌*◌, ◌≤◌, length};
ghost use Rattle.lattice.specs.Lattice.{at};
ghost use Rattle.cell.specs.Bytes.{cell_width};
ghost use Rattle.face.specs.Told.{filled, fill};
ghost use Rattle.tishkolan.specs.Inner.Cells.{pair_of};
ghost use Rattle.face.specs.Cells.{order_number, fill_cell, cells_bytes, new_told, neighbors_told, children_told, parent_told, ancestor_told, no_fields};
ghost use Rattle.face.specs.Cells.{fields_of, fields_told, lattice_coord_told, is_plain_told, compare_told, of_between, between_told, distance_told};
ghost use Rattle.face.specs.Cells.{manhattan_told};

use face::{BitsTold, CoordTold, FieldsTold, NumberTold, RefusalTold};
use refusal::{Cell, Refusal, Room};
use std::cmp::Ordering;

// The two cells that C hands over, the first read first.
#[tactic(auto, unfolding(cell::specs::Bytes::from_bytes_of))]
fn both(first: &[u8], second: &[u8]) -> Result<(Cell, Cell), Refusal>
    ensures { result ≡ pair_of first.now second.now }
{
    Ok((cell::from_bytes(first)?, cell::from_bytes(second)?))
}

// A cell at the front of what C lends.
pub fn put_cell(out: &mut [u8], a: Result<Cell, Refusal>) -> RefusalTold
    ensures { filled result out.new ≡ fill_cell out.old a }
{
    match a {
        Err(r) => r.into(),
        Ok(c) => {
            if out.len() < cell::CELL_WIDTH {
                return Refusal::NoRoom(Room::Output).into();
            }
            cell::write_at(out, 0, c);
            face::answered()
        }
    }
}

// The cell of these fields.
#[tactic(auto, unfolding(face::specs::Cells::new_told))]
pub fn tishkolan_cell_new(
    frame: u8,
    resolution: u8,
    x: i32,
    y: i32,
    z: i32,
    exponent: u8,
    flags: u8,
    out: &mut [u8],
) -> RefusalTold
    ensures { filled result out.new ≡ new_told frame resolution (at x y z) exponent flags out.old }
{
    put_cell(out, cell::new(frame, resolution, x, y, z, exponent, flags))
}

// The plain cell at a place.
#[tactic(auto, unfolding(face::specs::Cells::new_told))]
pub fn tishkolan_cell_from_coords(
    frame: u8,
    resolution: u8,
    x: i32,
    y: i32,
    z: i32,
    out: &mut [u8],
) -> RefusalTold
    ensures { filled result out.new ≡ new_told frame resolution (at x y z) 0 0 out.old }
{
    put_cell(out, cell::from_coords(frame, resolution, x, y, z))
}

#[tactic(auto, unfolding(face::specs::Cells::parent_told))]
pub fn tishkolan_cell_parent(cell: &[u8], out: &mut [u8]) -> RefusalTold
    ensures { filled result out.new ≡ parent_told cell.now out.old }
{
    put_cell(out, cell::from_bytes(cell).and_then(cell::parent))
}

#[tactic(auto, unfolding(face::specs::Cells::ancestor_told))]
pub fn tishkolan_cell_ancestor(cell: &[u8], resolution: u8, out: &mut [u8]) -> RefusalTold
    ensures { filled result out.new ≡ ancestor_told cell.now resolution out.old }
{
    put_cell(
        out,
        cell::from_bytes(cell).and_then(|c| cell::ancestor(c, resolution)),
    )
}

// The fields of a cell, as they were packed.
fn fields(c: Cell) -> FieldsTold
    ensures { result ≡ fields_of c }
{
    FieldsTold {
        refusal: face::answered(),
        frame: cell::frame(c),
        resolution: cell::resolution(c),
        exponent: cell::exponent(c),
        flags: cell::flags(c),
        reserved: cell::reserved(c),
        x: cell::x(c),
        y: cell::y(c),
        z: cell::z(c),
    }
}

fn no_fields(r: Refusal) -> FieldsTold
    ensures { result ≡ no_fields r }
{
    FieldsTold {
        refusal: r.into(),
        frame: 0,
        resolution: 0,
        exponent: 0,
        flags: 0,
        reserved: 0,
        x: 0,
        y: 0,
        z: 0,
    }
}

#[tactic(auto, unfolding(face::specs::Cells::fields_told))]
pub fn tishkolan_cell_fields(cell: &[u8]) -> FieldsTold
    ensures { result ≡ fields_told cell.now }
{
    match cell::from_bytes(cell) {
        Err(r) => no_fields(r),
        Ok(c) => fields(c),
    }
}

// The place that a cell names, tested.
#[tactic(auto, unfolding(face::specs::Cells::lattice_coord_told))]
pub fn tishkolan_cell_lattice_coord(cell: &[u8]) -> CoordTold
    ensures { result ≡ lattice_coord_told cell.now }
{
    cell::from_bytes(cell).and_then(cell::lattice_coord).into()
}

// 1 for true, 0 for false.
#[tactic(auto, unfolding(face::specs::Cells::is_plain_told))]
pub fn tishkolan_cell_is_plain(cell: &[u8]) -> NumberTold
    ensures { result ≡ is_plain_told cell.now }
{
    cell::from_bytes(cell).map(cell::is_plain).into()
}

fn order_number(o: Ordering) -> i32
    ensures { result ≡ order_number o }
{
    match o {
        Ordering::Less => -1,
        Ordering::Equal => 0,
        Ordering::Greater => 1,
    }
}

// -1, 0 or 1 as the first is below, the same as or above the second.
#[tactic(auto, unfolding(face::specs::Cells::compare_told))]
pub fn tishkolan_cell_compare(first: &[u8], second: &[u8]) -> NumberTold
    ensures { result ≡ compare_told first.now second.now }
{
    both(first, second)
        .map(|(a, b)| order_number(cell::compare(a, b)))
        .into()
}

// That nothing lies between is told as an answer.
#[tactic(auto, unfolding(face::specs::Cells::between_told))]
pub fn tishkolan_cell_between(first: &[u8], second: &[u8]) -> RefusalTold
    ensures { result ≡ between_told first.now second.now }
{
    match both(first, second).and_then(|(a, b)| cell::cell_between(a, b)) {
        Ok(()) => face::answered(),
        Err(r) => r.into(),
    }
}

#[tactic(auto, unfolding(face::specs::Cells::distance_told))]
pub fn tishkolan_cell_distance(first: &[u8], second: &[u8]) -> BitsTold
    ensures { result ≡ distance_told first.now second.now }
{
    both(first, second)
        .and_then(|(a, b)| cell::distance_to(a, b))
        .into()
}

#[tactic(auto, unfolding(face::specs::Cells::manhattan_told))]
pub fn tishkolan_cell_manhattan_distance(first: &[u8], second: &[u8]) -> NumberTold
    ensures { result ≡ manhattan_told first.now second.now }
{
    both(first, second)
        .and_then(|(a, b)| cell::manhattan_distance_to(a, b))
        .into()
}

// The bytes of these cells at the front of what C lends.
fn put_cells(out: &mut [u8], cells: &[Cell]) -> RefusalTold
    ensures { filled result out.new ≡ fill (cells_bytes cells.now) out.old }
{
    if out.len() < cell::CELL_WIDTH * cells.len() {
        return Refusal::NoRoom(Room::Output).into();
    }
    for (i, c) in cells.iter().enumerate() {
        cell::write_at(out, cell::CELL_WIDTH * i, *c);
    }
    face::answered()
}

// The 14 neighbours, in the table's order.
#[tactic(auto, unfolding(face::specs::Cells::neighbors_told))]
pub fn tishkolan_cell_neighbors(cell: &[u8], out: &mut [u8]) -> RefusalTold
    ensures { filled result out.new ≡ neighbors_told cell.now out.old }
{
    match cell::from_bytes(cell).and_then(cell::get_neighbors) {
        Ok(cells) => put_cells(out, &cells),
        Err(r) => r.into(),
    }
}

// The 8 children, in the table's order.
#[tactic(auto, unfolding(face::specs::Cells::children_told))]
pub fn tishkolan_cell_children(cell: &[u8], out: &mut [u8]) -> RefusalTold
    ensures { filled result out.new ≡ children_told cell.now out.old }
{
    match cell::from_bytes(cell).and_then(cell::get_children) {
        Ok(cells) => put_cells(out, &cells),
        Err(r) => r.into(),
    }
}
