// Cells for C: a cell is its 16 bytes, and another length is refused before anything else.
ghost use Rattle.std.specs.Prelude.{◌≡◌};
ghost use Rattle.lattice.specs.Lattice.{at};
ghost use Rattle.face.specs.Told.{filled};
ghost use Rattle.face.specs.Cells.{new_told, neighbors_told, children_told, parent_told, ancestor_told};
ghost use Rattle.face.specs.Cells.{fields_told, lattice_coord_told, is_plain_told, compare_told, between_told, distance_told};
ghost use Rattle.face.specs.Cells.{manhattan_told};

use face::{BitsTold, CoordTold, FieldsTold, NumberTold, RefusalTold};

// The cell of these fields.
#[unsafe(no_mangle)]
pub extern "C" fn tishkolan_cell_new(
    frame: u8,
    resolution: u8,
    x: i32,
    y: i32,
    z: i32,
    exponent: u8,
    flags: u8,
    out: &mut [u8],
) -> RefusalTold
    ensures { filled result out.new ≡ new_told frame resolution (at x y z) exponent flags out.old }
{
    tishkolan::cells::tishkolan_cell_new(frame, resolution, x, y, z, exponent, flags, out)
}

// The plain cell at a place.
#[unsafe(no_mangle)]
pub extern "C" fn tishkolan_cell_from_coords(
    frame: u8,
    resolution: u8,
    x: i32,
    y: i32,
    z: i32,
    out: &mut [u8],
) -> RefusalTold
    ensures { filled result out.new ≡ new_told frame resolution (at x y z) 0 0 out.old }
{
    tishkolan::cells::tishkolan_cell_from_coords(frame, resolution, x, y, z, out)
}

#[unsafe(no_mangle)]
pub extern "C" fn tishkolan_cell_parent(cell: &[u8], out: &mut [u8]) -> RefusalTold
    ensures { filled result out.new ≡ parent_told cell.now out.old }
{
    tishkolan::cells::tishkolan_cell_parent(cell, out)
}

#[unsafe(no_mangle)]
pub extern "C" fn tishkolan_cell_ancestor(
    cell: &[u8],
    resolution: u8,
    out: &mut [u8],
) -> RefusalTold
    ensures { filled result out.new ≡ ancestor_told cell.now resolution out.old }
{
    tishkolan::cells::tishkolan_cell_ancestor(cell, resolution, out)
}

#[unsafe(no_mangle)]
pub extern "C" fn tishkolan_cell_fields(cell: &[u8]) -> FieldsTold
    ensures { result ≡ fields_told cell.now }
{
    tishkolan::cells::tishkolan_cell_fields(cell)
}

// The place that a cell names, tested.
#[unsafe(no_mangle)]
pub extern "C" fn tishkolan_cell_lattice_coord(cell: &[u8]) -> CoordTold
    ensures { result ≡ lattice_coord_told cell.now }
{
    tishkolan::cells::tishkolan_cell_lattice_coord(cell)
}

// 1 for true, 0 for false.
#[unsafe(no_mangle)]
pub extern "C" fn tishkolan_cell_is_plain(cell: &[u8]) -> NumberTold
    ensures { result ≡ is_plain_told cell.now }
{
    tishkolan::cells::tishkolan_cell_is_plain(cell)
}

// -1, 0 or 1 as the first is below, the same as or above the second.
#[unsafe(no_mangle)]
pub extern "C" fn tishkolan_cell_compare(first: &[u8], second: &[u8]) -> NumberTold
    ensures { result ≡ compare_told first.now second.now }
{
    tishkolan::cells::tishkolan_cell_compare(first, second)
}

#[unsafe(no_mangle)]
pub extern "C" fn tishkolan_cell_between(first: &[u8], second: &[u8]) -> RefusalTold
    ensures { result ≡ between_told first.now second.now }
{
    tishkolan::cells::tishkolan_cell_between(first, second)
}

#[unsafe(no_mangle)]
pub extern "C" fn tishkolan_cell_distance(first: &[u8], second: &[u8]) -> BitsTold
    ensures { result ≡ distance_told first.now second.now }
{
    tishkolan::cells::tishkolan_cell_distance(first, second)
}

#[unsafe(no_mangle)]
pub extern "C" fn tishkolan_cell_manhattan_distance(first: &[u8], second: &[u8]) -> NumberTold
    ensures { result ≡ manhattan_told first.now second.now }
{
    tishkolan::cells::tishkolan_cell_manhattan_distance(first, second)
}

// The 14 neighbours, in the table's order.
#[unsafe(no_mangle)]
pub extern "C" fn tishkolan_cell_neighbors(cell: &[u8], out: &mut [u8]) -> RefusalTold
    ensures { filled result out.new ≡ neighbors_told cell.now out.old }
{
    tishkolan::cells::tishkolan_cell_neighbors(cell, out)
}

// The 8 children, in the table's order.
#[unsafe(no_mangle)]
pub extern "C" fn tishkolan_cell_children(cell: &[u8], out: &mut [u8]) -> RefusalTold
    ensures { filled result out.new ≡ children_told cell.now out.old }
{
    tishkolan::cells::tishkolan_cell_children(cell, out)
}
