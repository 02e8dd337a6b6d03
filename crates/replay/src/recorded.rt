// What a record of the Rust oracle's answers holds, and whether what a call told and wrote is what its record expects.
// vectors/src has the format of each list's records.
ghost use Rattle.std.specs.Prelude.{◌+◌, ◌≤◌, ◌<◌, length};

use face::{FieldsTold, RefusalTold};
use refusal::Coord;

// A record has 64 bytes. Behind them are 256 zeros: so bytes of any length that one byte says are inside, and what a record does not say is read there as 0.
pub type Record = [u8; 320];

// Where the zeros begin.
pub const ZEROS: usize = 64;

// What a lent buffer holds before a call on points and cells, and still holds where the call has nothing to write.
pub const UNTOUCHED: u8 = 0xA5;

pub const UNTOUCHED_NUMBER: i32 = -1515870811;

// ---- what stands in a record

// A number of two bytes, and of four.
pub fn count(record: &Record, at: usize) -> usize
    requires { at + 2 ≤ 320 }
    ensures { result < 65536 }
{
    words::read16_big(record, at) as usize
}

pub fn word(record: &Record, at: usize) -> u32
    requires { at + 4 ≤ 320 }
{
    words::read32_big(record, at)
}

// The bits of a double.
pub fn bits(record: &Record, at: usize) -> u64
    requires { at + 8 ≤ 320 }
{
    words::read64_big(record, at)
}

pub fn place(record: &Record, at: usize) -> Coord
    requires { at + 12 ≤ 320 }
{
    Coord {
        x: word(record, at).cast_signed(),
        y: word(record, at + 4).cast_signed(),
        z: word(record, at + 8).cast_signed(),
    }
}

// The bytes that are handed over as a cell: so many as the byte at `length` says.
pub fn cell(record: &Record, at: usize, length: usize) -> &[u8]
    requires { (at ≤ 64) × (length < 320) }
{
    &record[at..at + record[length] as usize]
}

// ---- whether what is told is what the record expects

pub fn same_place(record: &Record, at: usize, x: i32, y: i32, z: i32) -> bool
    requires { at + 12 ≤ 320 }
{
    let expected = place(record, at);
    x == expected.x && y == expected.y && z == expected.z
}

pub fn same_words(record: &Record, at: usize, a: u64, b: u64, c: u64, d: u64) -> bool
    requires { at + 32 ≤ 320 }
{
    a == bits(record, at)
        && b == bits(record, at + 8)
        && c == bits(record, at + 16)
        && d == bits(record, at + 24)
}

// The refusal whose number, room and coordinates the record has at these places.
pub fn same_refusal(
    record: &Record,
    told: RefusalTold,
    number: usize,
    room: usize,
    at: usize,
) -> bool
    requires { (number < 320) × (room < 320) × (at + 12 ≤ 320) }
{
    told.number == u32::from(record[number])
        && told.room == u32::from(record[room])
        && same_place(record, at, told.x, told.y, told.z)
}

// ---- points and cells

// A refusal's coordinates or an answer are at 40, and what is not there is in the zeros: the places of both together.
const BOTH: usize = 104;

// Where an answer is.
pub fn answer_at(record: &Record) -> usize
    ensures { result ≤ 64 }
{
    if record[5] == 0 { 40 } else { ZEROS }
}

// The record's refusal, where an answer would be at `at`.
pub fn same_told(record: &Record, told: RefusalTold, at: usize) -> bool
    requires { at ≤ 64 }
{
    same_refusal(record, told, 5, 6, BOTH - at)
}

// An answer of one to three numbers.
pub fn same_numbers(record: &Record, told: RefusalTold, x: i32, y: i32, z: i32) -> bool {
    let at = answer_at(record);
    same_told(record, told, at) && same_place(record, at, x, y, z)
}

// An answer of the bits of one to three doubles.
pub fn same_bits(record: &Record, told: RefusalTold, x: u64, y: u64, z: u64) -> bool {
    let at = answer_at(record);
    same_told(record, told, at) && same_words(record, at, x, y, z, 0)
}

// A cell's five bytes and its place.
pub fn same_fields(record: &Record, told: FieldsTold) -> bool {
    let at = answer_at(record);
    let head = [
        told.frame,
        told.resolution,
        told.exponent,
        told.flags,
        told.reserved,
    ];
    same_told(record, told.refusal, at)
        && record[at..at + 5] == head[..]
        && same_place(record, at + 5, told.x, told.y, told.z)
}

// ---- what is lent

pub fn filled(bytes: &[u8], byte: u8) -> bool {
    bytes.iter().all(|b| *b == byte)
}

// Whether the bytes begin with `front`, and each behind it is `rest`.
pub fn holds(bytes: &[u8], front: &[u8], rest: u8) -> bool {
    bytes
        .strip_prefix(front)
        .is_some_and(|behind| filled(behind, rest))
}

// A number that tells buffers apart: each byte times its place, counted from 1.
pub fn check_number(buffer: &[u8]) -> u64
    requires { length buffer.now ≤ 65536 }
{
    let mut sum = 0;
    for (i, byte) in buffer.iter().enumerate() {
        sum += (i as u64 + 1) * u64::from(*byte);
    }
    sum
}

// ---- the list

// The record that begins at `at`.
pub fn record_at(list: &[u8], at: usize) -> Record
    requires { at + 64 ≤ length list.now }
{
    let mut record = [0; 320];
    record[..64].copy_from_slice(&list[at..at + 64]);
    record
}
