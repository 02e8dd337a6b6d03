// Points for C: the square root, the lattice, snap and the distances. A point is its three numbers; a double is its bits.
ghost use Rattle.std.specs.Prelude.{◌≡◌};
ghost use Rattle.std.specs.Float.{binary64};
ghost use Rattle.std.specs.Float.Ieee.{of_bits};
ghost use Rattle.root.specs.Root.{root_bits_of};
ghost use Rattle.lattice.specs.Lattice.{at, is_lattice_point, parity_of, parent_of, manhattan_of};
ghost use Rattle.snap.specs.Snap.{point, snap_of, physical_bits_of};
ghost use Rattle.distance.specs.Distance.{distance_of};
ghost use Rattle.face.specs.Told.{of_root, of_parity, of_coord, of_point, of_distance, of_number, filled};
ghost use Rattle.face.specs.Points.{opposite_told, neighbors_told, children_told};

use face::{BitsTold, CoordTold, NumberTold, PointTold, RefusalTold};

// The nearest double to the root.
#[unsafe(no_mangle)]
pub extern "C" fn tishkolan_square_root(bits: u64) -> BitsTold
    ensures { result ≡ of_root (root_bits_of bits) }
{
    tishkolan::points::tishkolan_square_root(bits)
}

#[unsafe(no_mangle)]
pub extern "C" fn tishkolan_parity(x: i32, y: i32, z: i32) -> NumberTold
    ensures { result ≡ of_parity (parity_of (at x y z)) }
{
    tishkolan::points::tishkolan_parity(x, y, z)
}

// The other of the two parities, 0 and 1; no other number is one.
#[unsafe(no_mangle)]
pub extern "C" fn tishkolan_opposite(parity: u32) -> NumberTold
    ensures { result ≡ opposite_told parity }
{
    tishkolan::points::tishkolan_opposite(parity)
}

#[unsafe(no_mangle)]
pub extern "C" fn tishkolan_is_valid_lattice_point(x: i32, y: i32, z: i32) -> bool
    ensures { result ≡ is_lattice_point (at x y z) }
{
    tishkolan::points::tishkolan_is_valid_lattice_point(x, y, z)
}

// The 14 neighbours, refused by their parity, their range and at last for want of room.
#[unsafe(no_mangle)]
pub extern "C" fn tishkolan_lattice_neighbors(
    x: i32,
    y: i32,
    z: i32,
    out: &mut [i32],
) -> RefusalTold
    ensures { filled result out.new ≡ neighbors_told (at x y z) out.old }
{
    tishkolan::points::tishkolan_lattice_neighbors(x, y, z, out)
}

// The 8 children, refused in the same order.
#[unsafe(no_mangle)]
pub extern "C" fn tishkolan_lattice_children(x: i32, y: i32, z: i32, out: &mut [i32]) -> RefusalTold
    ensures { filled result out.new ≡ children_told (at x y z) out.old }
{
    tishkolan::points::tishkolan_lattice_children(x, y, z, out)
}

#[unsafe(no_mangle)]
pub extern "C" fn tishkolan_lattice_parent(x: i32, y: i32, z: i32) -> CoordTold
    ensures { result ≡ of_coord (parent_of (at x y z)) }
{
    tishkolan::points::tishkolan_lattice_parent(x, y, z)
}

// The lattice point nearest to a physical one.
#[unsafe(no_mangle)]
pub extern "C" fn tishkolan_physical_to_lattice(x: u64, y: u64, z: u64, resolution: u8) -> CoordTold
    ensures { result ≡ of_coord (snap_of (point (of_bits binary64 x) (of_bits binary64 y) (of_bits binary64 z)) resolution) }
{
    tishkolan::points::tishkolan_physical_to_lattice(x, y, z, resolution)
}

#[unsafe(no_mangle)]
pub extern "C" fn tishkolan_to_physical(x: i32, y: i32, z: i32) -> PointTold
    ensures { result ≡ of_point (physical_bits_of (at x y z)) }
{
    tishkolan::points::tishkolan_to_physical(x, y, z)
}

#[unsafe(no_mangle)]
pub extern "C" fn tishkolan_lattice_distance(
    ax: i32,
    ay: i32,
    az: i32,
    bx: i32,
    by: i32,
    bz: i32,
) -> BitsTold
    ensures { result ≡ of_distance (distance_of (at ax ay az) (at bx by bz)) }
{
    tishkolan::points::tishkolan_lattice_distance(ax, ay, az, bx, by, bz)
}

#[unsafe(no_mangle)]
pub extern "C" fn tishkolan_lattice_manhattan_distance(
    ax: i32,
    ay: i32,
    az: i32,
    bx: i32,
    by: i32,
    bz: i32,
) -> NumberTold
    ensures { result ≡ of_number (manhattan_of (at ax ay az) (at bx by bz)) }
{
    tishkolan::points::tishkolan_lattice_manhattan_distance(ax, ay, az, bx, by, bz)
}
