// A cell's name on paper: `cx3d1`, the cell's 128 bits as 26 characters, and six that show a mistyped one.
#![tactic(auto)]

ghost use Rattle.std.specs.Prelude.{◌≡◌, ◌++◌, map, ◌+◌, ◌*◌, ◌/◌, ◌^◌, ◌<◌, ◌≤◌, None, length, take, drop};
ghost use Rattle.refusal.specs.Refusals.{raw_of, cell_of};
ghost use Rattle.bech32m.specs.Checksum.{character_of};
ghost use Rattle.label.specs.Label.{beginning, label_width, data_of, label_of, unlike_from, mixed_at, unknown_at, bits_in, mistyped, read_values, read_of};

use bech32m::Kind;
use refusal::{Cell, LabelFault, Mistyped, Refusal};

// The characters of a label.
pub const LABEL_WIDTH: usize = 37;

// The characters of its data.
const DATA_WIDTH: usize = 26;

// cx3d
const PREFIX: [u8; 4] = [99, 120, 51, 100];

// cx3d1
const BEGINNING: [u8; 5] = [99, 120, 51, 100, 49];

// The 128 bits without the lowest three.
#[tactic(auto, unfolding(refusal::specs::Refusals::raw_of))]
fn eighth(c: Cell) -> Cell
    ensures { raw_of result ≡ raw_of c / 8 }
{
    Cell {
        high: c.high / 8,
        low: c.high % 8 * 2305843009213693952 + c.low / 8,
    }
}

// The 128 bits without the lowest five.
#[tactic(auto, unfolding(refusal::specs::Refusals::raw_of))]
fn thirty_second(c: Cell) -> Cell
    ensures { raw_of result ≡ raw_of c / 32 }
{
    Cell {
        high: c.high / 32,
        low: c.high % 32 * 576460752303423488 + c.low / 32,
    }
}

// A cell's bits, five a value, from the last value to the first; behind the last three bits stand two zero bits.
fn data_of(c: Cell) -> [u8; DATA_WIDTH]
    ensures { result ≡ data_of c }
{
    let mut values = [0u8; DATA_WIDTH];
    values[25] = (c.low % 8 * 4) as u8;
    let mut rest = eighth(c);
    for i in (0..25).rev() {
        values[i] = (rest.low % 32) as u8;
        rest = thirty_second(rest);
    }
    values
}

// The characters of values, from a place on.
fn put_characters(out: &mut [u8], at: usize, values: &[u8])
    requires { at + length values.now ≤ length out.old }
    ensures { out.new ≡ take at out.old ++ (map character_of values.now ++ drop (at + length values.now) out.old) }
{
    for (i, value) in values.iter().enumerate() {
        out[at + i] = bech32m::charset::character_of(*value);
    }
}

// A cell's label, in lower case.
pub fn to_bech32m(c: Cell) -> [u8; LABEL_WIDTH]
    ensures { result ≡ label_of c }
{
    let data = data_of(c);
    let checksum = bech32m::create_checksum(&PREFIX, &data);
    let mut label = [0u8; LABEL_WIDTH];
    words::bytes::copy_front(&mut label, &BEGINNING, 5);
    put_characters(&mut label, 5, &data);
    put_characters(&mut label, 31, &checksum);
    label
}

// The first place that is not as a label begins, or the end of a text that ends before.
fn unlike_beginning(text: &[u8]) -> Option<usize>
    ensures { result ≡ unlike_from 0 beginning text.now }
{
    for (i, expected) in BEGINNING.iter().enumerate() {
        if i >= text.len() || bech32m::lowered(text[i]) != *expected {
            return Some(i);
        }
    }
    None
}

// The first letter that is of another case than the first character.
fn mixed_at(text: &[u8]) -> Option<usize>
    ensures { result ≡ mixed_at text.now }
{
    if !text.is_empty() && bech32m::is_lower(text[0]) {
        return bech32m::first_of_kind(Kind::Upper, text, 0);
    }
    bech32m::first_of_kind(Kind::Lower, text, 0)
}

// The first character behind the prefix that has no value.
fn unknown_at(text: &[u8]) -> Option<usize>
    ensures { result ≡ unknown_at text.now }
{
    bech32m::first_of_kind(Kind::Unknown, text, 5)
}

fn mistyped(fault: LabelFault, place: usize) -> Result<Cell, Refusal>
    ensures { result ≡ mistyped fault place }
{
    Err(Refusal::BadLabel(Mistyped {
        fault,
        place: place as u64,
    }))
}

// Five bits behind the others.
fn with_five(c: Cell, value: u8) -> Cell
    requires { (raw_of c < 2 ^ 123) × (value < 32) }
    ensures { raw_of result ≡ raw_of c * 32 + value }
{
    Cell {
        high: c.high * 32 + c.low / 576460752303423488,
        low: c.low % 576460752303423488 * 32 + value as u64,
    }
}

// Three bits behind the others.
fn with_three(c: Cell, value: u8) -> Cell
    requires { (raw_of c < 2 ^ 125) × (value < 8) }
    ensures { result ≡ cell_of (raw_of c * 8 + value) }
{
    Cell {
        high: c.high * 8 + c.low / 2305843009213693952,
        low: c.low % 2305843009213693952 * 8 + value as u64,
    }
}

// The cell of the 25 values and three bits that a label of known characters has behind its beginning.
fn cell_in(text: &[u8]) -> Cell
    requires { (length text.now ≡ label_width) × (unknown_at text.now ≡ None) }
    ensures { result ≡ cell_of (bits_in text.now / 4) }
{
    let mut c = Cell { high: 0, low: 0 };
    for character in &text[5..30] {
        c = with_five(c, bech32m::charset::value_of(*character));
    }
    with_three(c, bech32m::charset::value_of(text[30]) / 4)
}

// Length, checksum and padding of a text whose characters are known, then its cell.
fn read_values(text: &[u8]) -> Result<Cell, Refusal>
    requires { unknown_at text.now ≡ None }
    ensures { result ≡ read_values text.now }
{
    if text.len() != LABEL_WIDTH {
        return mistyped(LabelFault::Length, text.len());
    }
    if !bech32m::verify_characters(&PREFIX, &text[5..]) {
        return mistyped(LabelFault::Checksum, text.len());
    }
    if bech32m::charset::value_of(text[30]) % 4 != 0 {
        return mistyped(LabelFault::Padding, 30);
    }
    Ok(cell_in(text))
}

// The cell of a label in either case, or the first mistake with its place.
#[tactic(auto, unfolding(crate::specs::Label::read_of))]
pub fn from_bech32m(text: &[u8]) -> Result<Cell, Refusal>
    ensures { result ≡ read_of text.now }
{
    if let Some(i) = unlike_beginning(text) {
        return mistyped(LabelFault::Prefix, i);
    }
    if let Some(i) = mixed_at(text) {
        return mistyped(LabelFault::MixedCase, i);
    }
    if let Some(i) = unknown_at(text) {
        return mistyped(LabelFault::Character, i);
    }
    read_values(text)
}
