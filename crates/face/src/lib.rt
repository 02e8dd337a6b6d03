// What C is told: the refusal with what it carries, and the answer beside it, zero where the call refuses. Each struct is one of include/tishkolan.h.
#![tactic(auto)]

ghost use Rattle.std.specs.Prelude.{◌≡◌};
ghost use Rattle.face.specs.Told.{telling, answered, told_of, number_told, no_number, of_number, of_parity, of_truth, bits_told, no_bits, of_root, of_distance};
ghost use Rattle.face.specs.Told.{of_coord, of_point};

pub mod layers;
pub mod searches;
pub mod surveys;

use lattice::Parity;
use refusal::{Coord, Refusal};
use snap::BitsOfPoint;

// A refusal's number, 0 for none, and what it carries: the room of NoRoom, the coordinates of InvalidParity.
#[repr(C)]
#[derive(Clone, Copy)]
pub struct RefusalTold {
    pub number: u32,
    pub room: u32,
    pub x: i32,
    pub y: i32,
    pub z: i32,
}

#[repr(C)]
#[derive(Clone, Copy)]
pub struct NumberTold {
    pub refusal: RefusalTold,
    pub value: i32,
}

// A double's bits.
#[repr(C)]
#[derive(Clone, Copy)]
pub struct BitsTold {
    pub refusal: RefusalTold,
    pub bits: u64,
}

#[repr(C)]
#[derive(Clone, Copy)]
pub struct CoordTold {
    pub refusal: RefusalTold,
    pub x: i32,
    pub y: i32,
    pub z: i32,
}

// The bits of three doubles.
#[repr(C)]
#[derive(Clone, Copy)]
pub struct PointTold {
    pub refusal: RefusalTold,
    pub x: u64,
    pub y: u64,
    pub z: u64,
}

#[repr(C)]
#[derive(Clone, Copy)]
pub struct FieldsTold {
    pub refusal: RefusalTold,
    pub frame: u8,
    pub resolution: u8,
    pub exponent: u8,
    pub flags: u8,
    pub reserved: u8,
    pub x: i32,
    pub y: i32,
    pub z: i32,
}

// A layer's count after the call.
#[repr(C)]
#[derive(Clone, Copy)]
pub struct CountTold {
    pub refusal: RefusalTold,
    pub count: u64,
}

// What is kept of a cell, flags or the bits of a value, and the layer's count after the call.
#[repr(C)]
#[derive(Clone, Copy)]
pub struct KeptTold {
    pub refusal: RefusalTold,
    pub found: u32,
    pub kept: u64,
    pub count: u64,
}

// The place of the first byte of a file that is wrong, and the counts of both layers after the call.
#[repr(C)]
#[derive(Clone, Copy)]
pub struct LoadTold {
    pub refusal: RefusalTold,
    pub place: u64,
    pub flags: u64,
    pub values: u64,
}

// The place of the first character of a label that is wrong.
#[repr(C)]
#[derive(Clone, Copy)]
pub struct PlaceTold {
    pub refusal: RefusalTold,
    pub place: u64,
}

// The bytes that a file takes.
#[repr(C)]
#[derive(Clone, Copy)]
pub struct LengthTold {
    pub refusal: RefusalTold,
    pub length: u64,
}

// A route's cells, the bits of its cost and the expansions that found it; the expansions and the limit of SearchLimitExceeded; the ends of NoPathFound.
#[repr(C)]
#[derive(Clone, Copy)]
pub struct SearchTold {
    pub refusal: RefusalTold,
    pub cells: u64,
    pub cost: u64,
    pub expansions: u64,
    pub limit: u64,
    pub start_high: u64,
    pub start_low: u64,
    pub goal_high: u64,
    pub goal_low: u64,
}

const NOWHERE: Coord = Coord { x: 0, y: 0, z: 0 };

fn telling(number: u32, room: u32, place: Coord) -> RefusalTold
    ensures { result ≡ telling number room place }
{
    RefusalTold {
        number,
        room,
        x: place.x,
        y: place.y,
        z: place.z,
    }
}

// No refusal: the answer is there.
pub fn answered() -> RefusalTold
    ensures { result ≡ answered }
{
    telling(0, 0, NOWHERE)
}

impl From<Refusal> for RefusalTold {
    ghost from_gives = { λ r told. told ≡ told_of r };

    fn from(r: Refusal) -> RefusalTold {
        let row = refusal::row_of(r);
        telling(row.number, row.room, row.coord)
    }
}

pub fn number(n: i32) -> NumberTold
    ensures { result ≡ number_told n }
{
    NumberTold {
        refusal: answered(),
        value: n,
    }
}

pub fn no_number(r: Refusal) -> NumberTold
    ensures { result ≡ no_number r }
{
    NumberTold {
        refusal: r.into(),
        value: 0,
    }
}

impl From<Result<i32, Refusal>> for NumberTold {
    ghost from_gives = { λ a told. told ≡ of_number a };

    fn from(a: Result<i32, Refusal>) -> NumberTold {
        match a {
            Ok(n) => number(n),
            Err(r) => no_number(r),
        }
    }
}

// 0 even, 1 odd.
impl From<Result<Parity, Refusal>> for NumberTold {
    ghost from_gives = { λ a told. told ≡ of_parity a };

    fn from(a: Result<Parity, Refusal>) -> NumberTold {
        match a {
            Ok(Parity::Even) => number(0),
            Ok(Parity::Odd) => number(1),
            Err(r) => no_number(r),
        }
    }
}

// 1 for yes, 0 for no.
impl From<Result<bool, Refusal>> for NumberTold {
    ghost from_gives = { λ a told. told ≡ of_truth a };

    fn from(a: Result<bool, Refusal>) -> NumberTold {
        match a {
            Ok(yes) => number(i32::from(yes)),
            Err(r) => no_number(r),
        }
    }
}

pub fn bits(b: u64) -> BitsTold
    ensures { result ≡ bits_told b }
{
    BitsTold {
        refusal: answered(),
        bits: b,
    }
}

pub fn no_bits(r: Refusal) -> BitsTold
    ensures { result ≡ no_bits r }
{
    BitsTold {
        refusal: r.into(),
        bits: 0,
    }
}

impl From<Result<u64, Refusal>> for BitsTold {
    ghost from_gives = { λ a told. told ≡ of_root a };

    fn from(a: Result<u64, Refusal>) -> BitsTold {
        match a {
            Ok(b) => bits(b),
            Err(r) => no_bits(r),
        }
    }
}

// A double by its bits.
impl From<Result<f64, Refusal>> for BitsTold {
    ghost from_gives = { λ a told. told ≡ of_distance a };

    fn from(a: Result<f64, Refusal>) -> BitsTold {
        match a {
            Ok(x) => bits(float::bits(x)),
            Err(r) => no_bits(r),
        }
    }
}

impl From<Result<Coord, Refusal>> for CoordTold {
    ghost from_gives = { λ a told. told ≡ of_coord a };

    fn from(a: Result<Coord, Refusal>) -> CoordTold {
        match a {
            Ok(Coord { x, y, z }) => CoordTold {
                refusal: answered(),
                x,
                y,
                z,
            },
            Err(r) => CoordTold {
                refusal: r.into(),
                x: 0,
                y: 0,
                z: 0,
            },
        }
    }
}

impl From<Result<BitsOfPoint, Refusal>> for PointTold {
    ghost from_gives = { λ a told. told ≡ of_point a };

    fn from(a: Result<BitsOfPoint, Refusal>) -> PointTold {
        match a {
            Ok(BitsOfPoint { x, y, z }) => PointTold {
                refusal: answered(),
                x,
                y,
                z,
            },
            Err(r) => PointTold {
                refusal: r.into(),
                x: 0,
                y: 0,
                z: 0,
            },
        }
    }
}
