// What a call answers when it has no answer: the refusals of the scope document and of the requests, with what each carries.
#![tactic(auto)]

ghost use Rattle.std.specs.Prelude.{◌≡◌};
ghost use Rattle.refusal.specs.declared.Refusal.TheVariants.{BadLabel};
ghost use Rattle.refusal.specs.Refusals.{carrying, carrying_nothing, row_of, number_of, room_of, fault_of};

// A place of the lattice. It is a lattice point where its coordinates are all even or all odd.
#[derive(Clone, Copy)]
pub struct Coord {
    pub x: i32,
    pub y: i32,
    pub z: i32,
}

// A packed cell, in two words of 64 bits. Cells are ordered as numbers of 128 bits.
#[derive(Clone, Copy, PartialEq, Eq, PartialOrd, Ord)]
pub struct Cell {
    // Bits 64 to 127: y, then z.
    pub high: u64,
    // Bits 0 to 63: frame, resolution, exponent, flags and reserved, then x.
    pub low: u64,
}

// The two ends between which no route was found.
#[derive(Clone, Copy)]
pub struct Ends {
    pub start: Cell,
    pub goal: Cell,
}

// What a search had spent when its limit stopped it.
#[derive(Clone, Copy)]
pub struct Spent {
    pub expansions: u64,
    pub limit: u64,
}

// The room that was one too small.
#[derive(Clone, Copy)]
pub enum Room {
    Known,
    Waiting,
    Output,
    Layer,
}

// What is wrong with a label.
#[derive(Clone, Copy)]
pub enum LabelFault {
    // It does not begin as a label does.
    Prefix,
    // Some letters are upper case and some are lower case.
    MixedCase,
    // A character that stands for no value.
    Character,
    Length,
    Checksum,
    // The two bits behind the cell's are not zero.
    Padding,
}

// A label that is none: what is wrong with it, and where.
#[derive(Clone, Copy)]
pub struct Mistyped {
    pub fault: LabelFault,
    pub place: u64,
}

#[derive(Clone, Copy)]
pub enum Refusal {
    // The coordinates are neither all even nor all odd.
    InvalidParity(Coord),
    // Resolution 0 has no parent, and no ancestor is finer than its cell.
    NoParent,
    // Resolution 255 has no children.
    NoChildren,
    OutOfRange,
    NoValues,
    HasNan,
    SearchLimitExceeded(Spent),
    NoPathFound(Ends),
    // A coordinate or a difference of two leaves the 32-bit numbers.
    CoordOverflow,
    NoRoom(Room),
    BadWorkspace,
    // The place of the first byte that is wrong.
    BadFile(u64),
    // A list of cells whose length is no multiple of 16, or a single cell of another length than 16.
    BadList,
    BadLayer,
    BadRule,
    BadLabel(Mistyped),
}

// A refusal's row of the table: its number, and what it carries. What it does not carry is 0.
#[derive(Clone, Copy)]
pub struct RefusalRow {
    pub number: u32,
    pub coord: Coord,
    pub spent: Spent,
    pub ends: Ends,
    pub room: u32,
    pub place: u64,
}

const NO_COORD: Coord = Coord { x: 0, y: 0, z: 0 };

const NO_CELL: Cell = Cell { high: 0, low: 0 };

const NONE_SPENT: Spent = Spent {
    expansions: 0,
    limit: 0,
};

const NO_ENDS: Ends = Ends {
    start: NO_CELL,
    goal: NO_CELL,
};

impl From<Room> for u32 {
    ghost from_gives = { λ r n. n ≡ room_of r };

    fn from(r: Room) -> u32 {
        match r {
            Room::Known => 1,
            Room::Waiting => 2,
            Room::Output => 3,
            Room::Layer => 4,
        }
    }
}

impl From<LabelFault> for u32 {
    ghost from_gives = { λ fault n. n ≡ fault_of fault };

    fn from(fault: LabelFault) -> u32 {
        match fault {
            LabelFault::Prefix => 30,
            LabelFault::MixedCase => 31,
            LabelFault::Character => 32,
            LabelFault::Length => 33,
            LabelFault::Checksum => 34,
            LabelFault::Padding => 35,
        }
    }
}

const CARRYING_NOTHING: RefusalRow = RefusalRow {
    number: 0,
    coord: NO_COORD,
    spent: NONE_SPENT,
    ends: NO_ENDS,
    room: 0,
    place: 0,
};

fn mistyped_row(m: Mistyped) -> RefusalRow
    ensures { result ≡ row_of (BadLabel m) }
{
    let fault = m.fault;
    RefusalRow {
        number: u32::from(fault),
        place: m.place,
        ..CARRYING_NOTHING
    }
}

pub fn row_of(r: Refusal) -> RefusalRow
    ensures { result ≡ row_of r }
{
    match r {
        Refusal::InvalidParity(coord) => RefusalRow {
            number: 1,
            coord,
            ..CARRYING_NOTHING
        },
        Refusal::NoParent => RefusalRow {
            number: 2,
            ..CARRYING_NOTHING
        },
        Refusal::NoChildren => RefusalRow {
            number: 3,
            ..CARRYING_NOTHING
        },
        Refusal::OutOfRange => RefusalRow {
            number: 4,
            ..CARRYING_NOTHING
        },
        Refusal::NoValues => RefusalRow {
            number: 5,
            ..CARRYING_NOTHING
        },
        Refusal::HasNan => RefusalRow {
            number: 6,
            ..CARRYING_NOTHING
        },
        Refusal::SearchLimitExceeded(spent) => RefusalRow {
            number: 7,
            spent,
            ..CARRYING_NOTHING
        },
        Refusal::NoPathFound(ends) => RefusalRow {
            number: 8,
            ends,
            ..CARRYING_NOTHING
        },
        Refusal::CoordOverflow => RefusalRow {
            number: 9,
            ..CARRYING_NOTHING
        },
        Refusal::NoRoom(room) => RefusalRow {
            number: 10,
            room: u32::from(room),
            ..CARRYING_NOTHING
        },
        Refusal::BadWorkspace => RefusalRow {
            number: 11,
            ..CARRYING_NOTHING
        },
        Refusal::BadFile(place) => RefusalRow {
            number: 12,
            place,
            ..CARRYING_NOTHING
        },
        Refusal::BadList => RefusalRow {
            number: 13,
            ..CARRYING_NOTHING
        },
        Refusal::BadLayer => RefusalRow {
            number: 14,
            ..CARRYING_NOTHING
        },
        Refusal::BadRule => RefusalRow {
            number: 15,
            ..CARRYING_NOTHING
        },
        Refusal::BadLabel(mistyped) => mistyped_row(mistyped),
    }
}

pub fn number(r: Refusal) -> u32
    ensures { result ≡ number_of r }
{
    row_of(r).number
}
