// From physical points to the lattice and back: the laser's points are snapped to the nearest lattice point.
#![tactic(auto)]

ghost use Rattle.std.specs.Prelude.{◌≡◌, true, ◌&&◌};
ghost use Rattle.std.specs.Float.{binary64};
ghost use Rattle.std.specs.Float.Ieee.{of_bits};
ghost use Rattle.snap.specs.Snap.{point, scaled, in_range, all_in_range, even_near, odd_near, even_point, odd_point, square_off, squares_off, nearer};
ghost use Rattle.snap.specs.Snap.{snap_of, physical_of, bits_of, physical_bits_of};

use refusal::{Coord, Refusal};

// A physical point.
#[derive(Clone, Copy)]
pub struct Point {
    pub x: f64,
    pub y: f64,
    pub z: f64,
}

// A physical point by the bit patterns of its coordinates.
#[derive(Clone, Copy)]
pub struct BitsOfPoint {
    pub x: u64,
    pub y: u64,
    pub z: u64,
}

// Each coordinate times 2^resolution.
#[tactic(auto, unfolding(crate::specs::Snap::scaled))]
fn scaled(p: Point, resolution: u8) -> Point
    ensures { result ≡ scaled p resolution }
{
    let scale = float::power_of_two(resolution);
    Point {
        x: p.x * scale,
        y: p.y * scale,
        z: p.z * scale,
    }
}

// No NaN is, and no infinity.
fn in_range(v: f64) -> bool
    ensures { result ≡ in_range v }
{
    -2147483646.0 <= v && v <= 2147483646.0
}

#[tactic(auto, unfolding(crate::specs::Snap::all_in_range))]
fn all_in_range(p: Point) -> bool
    ensures { result ≡ all_in_range p }
{
    in_range(p.x) && in_range(p.y) && in_range(p.z)
}

// The even candidate: twice the whole number nearest to half of a coordinate.
fn even_near(v: f64) -> i32
    requires { in_range v ≡ true }
    ensures { result ≡ even_near v }
{
    let n = float::nearest_whole(v / 2.0);
    n + n
}

// The odd candidate: one more than twice the whole number nearest to half of one less.
fn odd_near(v: f64) -> i32
    requires { in_range v ≡ true }
    ensures { result ≡ odd_near v }
{
    let n = float::nearest_whole((v - 1.0) / 2.0);
    n + n + 1
}

fn even_point(p: Point) -> Coord
    requires { all_in_range p ≡ true }
    ensures { result ≡ even_point p }
{
    Coord {
        x: even_near(p.x),
        y: even_near(p.y),
        z: even_near(p.z),
    }
}

fn odd_point(p: Point) -> Coord
    requires { all_in_range p ≡ true }
    ensures { result ≡ odd_point p }
{
    Coord {
        x: odd_near(p.x),
        y: odd_near(p.y),
        z: odd_near(p.z),
    }
}

#[tactic(auto, unfolding(crate::specs::Snap::square_off))]
fn square_off(n: i32, v: f64) -> f64
    ensures { result ≡ square_off n v }
{
    let d = n as f64 - v;
    d * d
}

// The square of a candidate's distance from the point.
#[tactic(auto, unfolding(crate::specs::Snap::squares_off))]
fn squares_off(c: Coord, p: Point) -> f64
    ensures { result ≡ squares_off c p }
{
    square_off(c.x, p.x) + square_off(c.y, p.y) + square_off(c.z, p.z)
}

// The nearer of the two candidates; at a tie the even one.
#[tactic(auto, unfolding(crate::specs::Snap::nearer))]
fn nearer(p: Point) -> Coord
    requires { all_in_range p ≡ true }
    ensures { result ≡ nearer p }
{
    let even = even_point(p);
    let odd = odd_point(p);
    if squares_off(even, p) <= squares_off(odd, p) {
        return even;
    }
    odd
}

// The lattice point nearest to a physical point at a resolution.
#[tactic(auto, unfolding(crate::specs::Snap::snap_of))]
pub fn physical_to_lattice(p: Point, resolution: u8) -> Result<Coord, Refusal>
    ensures { result ≡ snap_of p resolution }
{
    let s = scaled(p, resolution);
    // The refusal returns by itself: where both answers end in one place, it takes twice the instructions.
    if !all_in_range(s) {
        return Err(Refusal::OutOfRange);
    }
    Ok(nearer(s))
}

// A lattice point's coordinates as physical ones.
#[tactic(auto, unfolding(crate::specs::Snap::physical_of))]
pub fn to_physical(c: Coord) -> Result<Point, Refusal>
    ensures { result ≡ physical_of c }
{
    lattice::parity_of(c)?;
    Ok(Point {
        x: c.x as f64,
        y: c.y as f64,
        z: c.z as f64,
    })
}

// Snap by the coordinates' bit patterns: every pattern is taken, and a NaN's is out of range.
#[tactic(auto, using(crate::proofs::Answers::nan_x, crate::proofs::Answers::nan_y, crate::proofs::Answers::nan_z))]
pub fn snap_bits(x: u64, y: u64, z: u64, resolution: u8) -> Result<Coord, Refusal>
    ensures { result ≡ snap_of (point (of_bits binary64 x) (of_bits binary64 y) (of_bits binary64 z)) resolution }
{
    if float::is_nan(x) || float::is_nan(y) || float::is_nan(z) {
        return Err(Refusal::OutOfRange);
    }
    physical_to_lattice(
        Point {
            x: float::value(x),
            y: float::value(y),
            z: float::value(z),
        },
        resolution,
    )
}

fn bits_of(p: Point) -> BitsOfPoint
    ensures { result ≡ bits_of p }
{
    BitsOfPoint {
        x: float::bits(p.x),
        y: float::bits(p.y),
        z: float::bits(p.z),
    }
}

// A lattice point's coordinates as the bit patterns of physical ones.
#[tactic(auto, unfolding(crate::specs::Snap::physical_bits_of))]
pub fn physical_bits(c: Coord) -> Result<BitsOfPoint, Refusal>
    ensures { result ≡ physical_bits_of c }
{
    let p = to_physical(c)?;
    Ok(bits_of(p))
}
