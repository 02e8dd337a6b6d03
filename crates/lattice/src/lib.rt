// The body-centred cubic lattice on whole numbers: which points belong to it, their 14 neighbours, 8 children and parent, and the Manhattan distance.
#![tactic(auto)]

ghost use Rattle.std.specs.Prelude.{◌≡◌, true, not, ◌<◌, ◌^◌, nat_abs, ◌-ℤ◌};
ghost use Rattle.std.specs.Bool.{beq};
ghost use Rattle.std.specs.Int.{w32};
ghost use Rattle.std.proofs.Common.{SFits};
ghost use Rattle.lattice.specs.Lattice.{is_odd, is_lattice_point, parity_of, opposite_of, Fitting, at, moved, doubled, within, has_neighbor_room};
ghost use Rattle.lattice.specs.Lattice.{neighbor_places, neighbors_of, has_child_room, child_places, children_of, half};
ghost use Rattle.lattice.specs.Lattice.{halves, raised, differing_axis, take_one_off, even_parent, odd_parent, parent_of, apart, manhattan, manhattan_of};

use refusal::{Coord, Refusal};

// What the three coordinates of a lattice point have in common.
#[derive(Clone, Copy, PartialEq, Eq)]
pub enum Parity {
    Even,
    Odd,
}

// The other parity.
pub fn opposite(p: Parity) -> Parity
    ensures { result ≡ opposite_of p }
{
    match p {
        Parity::Even => Parity::Odd,
        Parity::Odd => Parity::Even,
    }
}

// Of negatives too: -3 % 2 is -1.
fn is_odd(x: i32) -> bool
    ensures { result ≡ is_odd x }
{
    x % 2 != 0
}

// All even or all odd.
#[tactic(auto, unfolding(crate::specs::Lattice::is_lattice_point))]
pub fn is_valid_lattice_point(c: Coord) -> bool
    ensures { result ≡ is_lattice_point c }
{
    is_odd(c.x) == is_odd(c.y) && is_odd(c.y) == is_odd(c.z)
}

// The parity of a lattice point; any other place is refused, and named.
#[tactic(auto, unfolding(crate::specs::Lattice::parity_of))]
pub fn parity_of(c: Coord) -> Result<Parity, Refusal>
    ensures { result ≡ parity_of c }
{
    if !is_valid_lattice_point(c) {
        return Err(Refusal::InvalidParity(c));
    }
    if is_odd(c.x) {
        Ok(Parity::Odd)
    } else {
        Ok(Parity::Even)
    }
}

// From low to high, both ends counted.
fn is_within(low: i32, high: i32, x: i32) -> bool
    ensures { result ≡ within low high x }
{
    (low..=high).contains(&x)
}

// The coordinates whose neighbours' fit 32 bits.
const LEAST_WITH_NEIGHBORS: i32 = -2147483646;

const MOST_WITH_NEIGHBORS: i32 = 2147483645;

// A step of two fits, whichever way.
#[tactic(auto, unfolding(crate::specs::Lattice::has_neighbor_room))]
pub fn has_neighbor_room(c: Coord) -> bool
    ensures { result ≡ has_neighbor_room c }
{
    is_within(LEAST_WITH_NEIGHBORS, MOST_WITH_NEIGHBORS, c.x)
        && is_within(LEAST_WITH_NEIGHBORS, MOST_WITH_NEIGHBORS, c.y)
        && is_within(LEAST_WITH_NEIGHBORS, MOST_WITH_NEIGHBORS, c.z)
}

// The coordinates whose children's fit 32 bits.
const LEAST_X_WITH_CHILDREN: i32 = -1073741824;

const LEAST_WITH_CHILDREN: i32 = -1073741823;

const MOST_WITH_CHILDREN: i32 = 1073741822;

// Every child's coordinates fit.
#[tactic(auto, unfolding(crate::specs::Lattice::has_child_room))]
pub fn has_child_room(c: Coord) -> bool
    ensures { result ≡ has_child_room c }
{
    is_within(LEAST_X_WITH_CHILDREN, MOST_WITH_CHILDREN, c.x)
        && is_within(LEAST_WITH_CHILDREN, MOST_WITH_CHILDREN, c.y)
        && is_within(LEAST_WITH_CHILDREN, MOST_WITH_CHILDREN, c.z)
}

// The place that many steps away along each axis.
fn moved(c: Coord, x: i32, y: i32, z: i32) -> Coord
    requires { Fitting (moved c (at x y z)) }
    ensures { result ≡ moved c (at x y z) }
{
    Coord {
        x: c.x + x,
        y: c.y + y,
        z: c.z + z,
    }
}

// The place that is the first child, from which the others are reckoned.
fn doubled(c: Coord) -> Coord
    requires { Fitting (doubled c) }
    ensures { result ≡ doubled c }
{
    Coord {
        x: c.x + c.x,
        y: c.y + c.y,
        z: c.z + c.z,
    }
}

// The 14 neighbours in the table's order, where there is room.
pub fn neighbor_places(c: Coord) -> [Coord; 14]
    requires { has_neighbor_room c ≡ true }
    ensures { result ≡ neighbor_places c }
{
    [
        moved(c, 1, 1, 1),
        moved(c, 1, 1, -1),
        moved(c, 1, -1, 1),
        moved(c, 1, -1, -1),
        moved(c, -1, 1, 1),
        moved(c, -1, 1, -1),
        moved(c, -1, -1, 1),
        moved(c, -1, -1, -1),
        moved(c, 2, 0, 0),
        moved(c, -2, 0, 0),
        moved(c, 0, 2, 0),
        moved(c, 0, -2, 0),
        moved(c, 0, 0, 2),
        moved(c, 0, 0, -2),
    ]
}

// The 14 neighbours in the table's order. Parity is tested first, then room.
#[tactic(auto, unfolding(crate::specs::Lattice::neighbors_of))]
pub fn get_neighbors(c: Coord) -> Result<[Coord; 14], Refusal>
    ensures { result ≡ neighbors_of c }
{
    parity_of(c)?;
    if has_neighbor_room(c) {
        Ok(neighbor_places(c))
    } else {
        Err(Refusal::CoordOverflow)
    }
}

// The 8 children in the table's order, where there is room.
pub fn child_places(c: Coord) -> [Coord; 8]
    requires { has_child_room c ≡ true }
    ensures { result ≡ child_places c }
{
    let twice = doubled(c);
    [
        moved(twice, 0, 0, 0),
        moved(twice, 2, 0, 0),
        moved(twice, 0, 2, 0),
        moved(twice, 0, 0, 2),
        moved(twice, 1, 1, 1),
        moved(twice, 1, 1, -1),
        moved(twice, 1, -1, 1),
        moved(twice, 1, -1, -1),
    ]
}

// The 8 children in the table's order. Parity is tested first, then room.
#[tactic(auto, unfolding(crate::specs::Lattice::children_of, crate::specs::Lattice::parity_of))]
pub fn get_children(c: Coord) -> Result<[Coord; 8], Refusal>
    ensures { result ≡ children_of c }
{
    parity_of(c)?; // tested before the room
    if has_child_room(c) {
        Ok(child_places(c))
    } else {
        Err(Refusal::CoordOverflow)
    }
}

// Rounded down, of negatives too.
fn half(x: i32) -> i32
    ensures { result ≡ half x }
{
    x >> 1
}

// Each coordinate's half, which leaves room for one more or one less.
fn halves(c: Coord) -> Coord
    ensures { (result ≡ halves c) × (has_neighbor_room result ≡ true) }
{
    Coord {
        x: half(c.x),
        y: half(c.y),
        z: half(c.z),
    }
}

// An axis, or none of the three.
#[derive(Clone, Copy)]
enum Axis {
    X,
    Y,
    Z,
    Neither,
}

// The axis whose parity differs from the other two.
fn differing_axis(c: Coord) -> Axis
    ensures { result ≡ differing_axis (is_odd c.x) (is_odd c.y) (is_odd c.z) }
{
    let x = is_odd(c.x);
    let y = is_odd(c.y);
    let z = is_odd(c.z);
    if x == y {
        if y == z {
            return Axis::Neither;
        }
        return Axis::Z;
    }
    if x == z {
        return Axis::Y;
    }
    Axis::X
}

// One less on that axis; the place itself where there is none. A match for each coordinate makes no jump, as one match over the four cases would.
fn take_one_off(axis: Axis, c: Coord) -> Coord
    requires { has_neighbor_room c ≡ true }
    ensures { result ≡ take_one_off axis c }
{
    Coord {
        x: match axis {
            Axis::X => c.x - 1,
            _ => c.x,
        },
        y: match axis {
            Axis::Y => c.y - 1,
            _ => c.y,
        },
        z: match axis {
            Axis::Z => c.z - 1,
            _ => c.z,
        },
    }
}

// Of an even point: halve, find the axis whose parity differs from the other two, take one off it; if none differs keep the halves. For an even child is
// twice its parent, or a step of two along one axis from there, and a parent's parities agree: the axis that differs is that of the step.
fn even_parent(c: Coord) -> Coord
    ensures { result ≡ even_parent (halves c) }
{
    let halved = halves(c);
    let axis = differing_axis(halved);
    take_one_off(axis, halved)
}

// One more where the parity of y is not that of x.
fn raised_to(x: i32, y: i32) -> i32
    requires { SFits w32 (raised true y) }
    ensures { result ≡ raised (not (beq (is_odd x) (is_odd y))) y }
{
    if is_odd(x) == is_odd(y) { y } else { y + 1 }
}

// Of an odd point: halve, and add one to y and to z where their parity differs from that of x. The rule for even points would be wrong here: of (-3,1,-1),
// halved to (-2,0,-1), it would make (-2,0,-2), and the parent is (-2,0,0).
fn odd_parent(c: Coord) -> Coord
    ensures { result ≡ odd_parent (halves c) }
{
    let halved = halves(c);
    Coord {
        x: halved.x,
        y: raised_to(halved.x, halved.y),
        z: raised_to(halved.x, halved.z),
    }
}

// The one point whose child this is.
#[tactic(auto, unfolding(crate::specs::Lattice::parent_of))]
pub fn get_parent(c: Coord) -> Result<Coord, Refusal>
    ensures { result ≡ parent_of c }
{
    match parity_of(c)? {
        Parity::Even => Ok(even_parent(c)),
        Parity::Odd => Ok(odd_parent(c)),
    }
}

// In 64 bits, where it fits.
fn difference(a: i32, b: i32) -> i64
    ensures { result ≡ a -ℤ b }
{
    (a as i64) - (b as i64)
}

// The distance from zero.
pub fn absolute(d: i64) -> u32
    requires { nat_abs d < 2 ^ 32 }
    ensures { result ≡ nat_abs d }
{
    if d < 0 {
        return (0 - d) as u32;
    }
    d as u32
}

// How far two numbers are from each other, which may pass the signed numbers of 32 bits.
fn apart(a: i32, b: i32) -> u32
    ensures { result ≡ apart a b }
{
    absolute(difference(a, b))
}

// The greatest number of 32 bits with a sign.
const MOST_NUMBER: u64 = 2147483647;

// The sum of the three distances, in 64 bits.
#[tactic(auto, unfolding(crate::specs::Lattice::manhattan))]
fn manhattan(a: Coord, b: Coord) -> u64
    ensures { result ≡ manhattan a b }
{
    (apart(a.x, b.x) as u64) + (apart(a.y, b.y) as u64) + (apart(a.z, b.z) as u64)
}

// The Manhattan distance: parity of the first, then of the second, then whether the sum fits.
#[tactic(auto, unfolding(crate::specs::Lattice::manhattan_of))]
pub fn manhattan_distance_to(a: Coord, b: Coord) -> Result<i32, Refusal>
    ensures { result ≡ manhattan_of a b }
{
    parity_of(a)?;
    parity_of(b)?;
    let n = manhattan(a, b);
    if n <= MOST_NUMBER {
        Ok(n as i32)
    } else {
        Err(Refusal::CoordOverflow)
    }
}
