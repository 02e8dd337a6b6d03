// Points for C: the square root, the lattice, snap and the distances. A point is its three numbers; a double is its bits.
ghost use Rattle.std.specs.Prelude.{◌≡◌, ◌+◌, ◌*◌, ◌≤◌, length};
ghost use Rattle.std.specs.Float.{binary64};
ghost use Rattle.std.specs.Float.Ieee.{of_bits};
ghost use Rattle.std.proofs.lemmas.List.Edits.{sets};
ghost use Rattle.root.specs.Root.{root_bits_of};
ghost use Rattle.lattice.specs.Lattice.{at, is_lattice_point, parity_of, parent_of, manhattan_of};
ghost use Rattle.snap.specs.Snap.{point, snap_of, physical_bits_of};
ghost use Rattle.distance.specs.Distance.{distance_of};
ghost use Rattle.face.specs.Told.{of_root, of_parity, of_coord, of_point, of_distance, of_number, filled, fill};
ghost use Rattle.face.specs.Points.{opposite_told, triple, triples, neighbors_told, children_told};

use face::{BitsTold, CoordTold, NumberTold, PointTold, RefusalTold};
use refusal::{Coord, Refusal, Room};

// The numbers of a place: x, y and z.
const PLACE_LENGTH: usize = 3;

// The nearest double to the root.
pub fn tishkolan_square_root(bits: u64) -> BitsTold
    ensures { result ≡ of_root (root_bits_of bits) }
{
    root::square_root_bits(bits).into()
}

pub fn tishkolan_parity(x: i32, y: i32, z: i32) -> NumberTold
    ensures { result ≡ of_parity (parity_of (at x y z)) }
{
    lattice::parity_of(Coord { x, y, z }).into()
}

// The other of the two parities, 0 and 1; no other number is one.
pub fn tishkolan_opposite(parity: u32) -> NumberTold
    ensures { result ≡ opposite_told parity }
{
    let other = match parity {
        0 => Ok(1),
        1 => Ok(0),
        _ => Err(Refusal::OutOfRange),
    };
    other.into()
}

pub fn tishkolan_is_valid_lattice_point(x: i32, y: i32, z: i32) -> bool
    ensures { result ≡ is_lattice_point (at x y z) }
{
    lattice::is_valid_lattice_point(Coord { x, y, z })
}

// x, y, z of one place.
fn put_place(out: &mut [i32], at: usize, c: Coord)
    requires { at + 3 ≤ length out.old }
    ensures { out.new ≡ sets out.old at (triple c) }
{
    out[at] = c.x;
    out[at + 1] = c.y;
    out[at + 2] = c.z;
}

// The coordinates of these places at the front of what C lends.
fn put_places(out: &mut [i32], places: &[Coord]) -> RefusalTold
    ensures { filled result out.new ≡ fill (triples places.now) out.old }
{
    if out.len() < PLACE_LENGTH * places.len() {
        return Refusal::NoRoom(Room::Output).into();
    }
    for (i, c) in places.iter().enumerate() {
        put_place(out, PLACE_LENGTH * i, *c);
    }
    face::answered()
}

// The 14 neighbours, refused by their parity, their range and at last for want of room.
#[tactic(auto, unfolding(face::specs::Points::neighbors_told))]
pub fn tishkolan_lattice_neighbors(x: i32, y: i32, z: i32, out: &mut [i32]) -> RefusalTold
    ensures { filled result out.new ≡ neighbors_told (at x y z) out.old }
{
    match lattice::get_neighbors(Coord { x, y, z }) {
        Ok(places) => put_places(out, &places),
        Err(r) => r.into(),
    }
}

// The 8 children, refused in the same order.
#[tactic(auto, unfolding(face::specs::Points::children_told))]
pub fn tishkolan_lattice_children(x: i32, y: i32, z: i32, out: &mut [i32]) -> RefusalTold
    ensures { filled result out.new ≡ children_told (at x y z) out.old }
{
    match lattice::get_children(Coord { x, y, z }) {
        Ok(places) => put_places(out, &places),
        Err(r) => r.into(),
    }
}

pub fn tishkolan_lattice_parent(x: i32, y: i32, z: i32) -> CoordTold
    ensures { result ≡ of_coord (parent_of (at x y z)) }
{
    lattice::get_parent(Coord { x, y, z }).into()
}

// The lattice point nearest to a physical one.
pub fn tishkolan_physical_to_lattice(x: u64, y: u64, z: u64, resolution: u8) -> CoordTold
    ensures { result ≡ of_coord (snap_of (point (of_bits binary64 x) (of_bits binary64 y) (of_bits binary64 z)) resolution) }
{
    snap::snap_bits(x, y, z, resolution).into()
}

pub fn tishkolan_to_physical(x: i32, y: i32, z: i32) -> PointTold
    ensures { result ≡ of_point (physical_bits_of (at x y z)) }
{
    snap::physical_bits(Coord { x, y, z }).into()
}

pub fn tishkolan_lattice_distance(ax: i32, ay: i32, az: i32, bx: i32, by: i32, bz: i32) -> BitsTold
    ensures { result ≡ of_distance (distance_of (at ax ay az) (at bx by bz)) }
{
    distance::distance_to(
        Coord {
            x: ax,
            y: ay,
            z: az,
        },
        Coord {
            x: bx,
            y: by,
            z: bz,
        },
    )
    .into()
}

pub fn tishkolan_lattice_manhattan_distance(
    ax: i32,
    ay: i32,
    az: i32,
    bx: i32,
    by: i32,
    bz: i32,
) -> NumberTold
    ensures { result ≡ of_number (manhattan_of (at ax ay az) (at bx by bz)) }
{
    lattice::manhattan_distance_to(
        Coord {
            x: ax,
            y: ay,
            z: az,
        },
        Coord {
            x: bx,
            y: by,
            z: bz,
        },
    )
    .into()
}
