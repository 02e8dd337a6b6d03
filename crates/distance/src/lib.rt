// The Euclidean distance of two lattice points: differences, squares and sums rounded once each, in source order, then the square root.
#![tactic(auto)]

ghost use Rattle.std.specs.Prelude.{◌≡◌, true, ◌-ℤ◌};
ghost use Rattle.std.specs.Int.{w32};
ghost use Rattle.std.proofs.Common.{SFits};
ghost use Rattle.distance.specs.Distance.{difference_fits, differences_fit, square_apart, squared_distance, distance_of};

use refusal::{Coord, Refusal};

// Whether the first less the second, on one axis, is a 32-bit number.
fn difference_fits(a: i32, b: i32) -> bool
    ensures { result ≡ difference_fits a b }
{
    a.checked_sub(b).is_some()
}

// The same on all three axes.
pub fn differences_fit(a: Coord, b: Coord) -> bool
    ensures { result ≡ differences_fit a b }
{
    difference_fits(a.x, b.x) && difference_fits(a.y, b.y) && difference_fits(a.z, b.z)
}

// The square of the difference on one axis.
fn square_apart(a: i32, b: i32) -> f64
    requires { SFits w32 (a -ℤ b) }
    ensures { result ≡ square_apart a b }
{
    let d = (a - b) as f64;
    d * d
}

// The squares of x and y added, then that of z.
fn squared_distance(a: Coord, b: Coord) -> f64
    requires { differences_fit a b ≡ true }
    ensures { result ≡ squared_distance a b }
{
    square_apart(a.x, b.x) + square_apart(a.y, b.y) + square_apart(a.z, b.z)
}

// The distance, or refused: the first that is no lattice point, then a difference that leaves the 32-bit numbers.
#[tactic(auto, unfolding(crate::specs::Distance::distance_of))]
pub fn distance_to(a: Coord, b: Coord) -> Result<f64, Refusal>
    ensures { result ≡ distance_of a b }
{
    lattice::parity_of(a)?;
    lattice::parity_of(b)?;
    if differences_fit(a, b) {
        root::square_root(squared_distance(a, b))
    } else {
        Err(Refusal::CoordOverflow)
    }
}
