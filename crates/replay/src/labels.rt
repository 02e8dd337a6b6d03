// Labels, replayed: the calls 25 and 26 of the list of points and cells. vectors/src/main.rs has the format of their records.
use crate::recorded;
use crate::recorded::Record;
use face::RefusalTold;
use tishkolan::labels;

// Whether a call says what its record expects, and leaves `answer` at the front of its buffer, or nothing where it refuses, and writes nothing behind.
// Neither call carries coordinates.
fn same_left(record: &Record, told: RefusalTold, answer: &[u8], out: &[u8; 256]) -> bool {
    let left = if record[5] == 0 { answer } else { b"" };
    recorded::same_refusal(record, told, 5, 6, recorded::ZEROS)
        && recorded::holds(out, left, recorded::UNTOUCHED)
}

pub fn written_agrees(record: &Record) -> bool {
    let mut out = [recorded::UNTOUCHED; 256];
    let cell = recorded::cell(record, 8, 2);
    let told = labels::tishkolan_cell_to_bech32m(cell, &mut out[..record[4] as usize]);
    same_left(record, told, &record[24..61], &out)
}

// The place of a mistake stands where an answer would.
pub fn read_agrees(record: &Record) -> bool {
    let mut out = [recorded::UNTOUCHED; 256];
    let label = recorded::cell(record, 8, 2);
    let told = labels::tishkolan_cell_from_bech32m(label, &mut out[..record[4] as usize]);
    let place = if record[5] == 0 {
        0
    } else {
        recorded::bits(record, 48)
    };
    told.place == place && same_left(record, told.refusal, &record[48..64], &out)
}
