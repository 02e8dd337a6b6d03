// The Rust oracle's answers on layers, replayed: each record is a call on one of three tables of 8 records, which are kept from call to call.
// vectors/src/layers.rs has the format of a record and the numbers of the calls.
ghost use Rattle.std.specs.Prelude.{◌≤◌, length};

use crate::recorded;
use crate::recorded::Record;
use face::{KeptTold, RefusalTold};
use tishkolan::{aggregates, layers};

// What is told to be found where there is no such call: no byte of a record.
const NEVER: u32 = 256;

// The three tables, and how many records of each are in use.
#[derive(Drop)]
pub struct Tables {
    flags: [u8; 160],
    values: [u8; 192],
    coarse: [u8; 192],
    flags_used: usize,
    values_used: usize,
    coarse_used: usize,
}

// ---- what a call says, told alike of all calls

fn kept(refusal: RefusalTold, found: u32, kept: u64, count: u64) -> KeptTold {
    KeptTold {
        refusal,
        found,
        kept,
        count,
    }
}

// No refusal of these calls carries coordinates.
fn same_kept(record: &Record, told: KeptTold, table: &[u8]) -> bool
    requires { length table.now ≤ 192 }
{
    recorded::same_refusal(record, told.refusal, 2, 3, recorded::ZEROS)
        && told.found == u32::from(record[4])
        && recorded::same_words(
            record,
            32,
            told.kept,
            told.count,
            recorded::check_number(table),
            0,
        )
}

// ---- the calls

// The record's cell, then those of the table's 8 records.
fn cells_asked(record: &Record, table: &[u8; 192]) -> [u8; 144] {
    let mut cells = [0; 144];
    cell::write_at(&mut cells, 0, cell::read_at(record, 8));
    for i in 0..8 {
        cell::write_at(&mut cells, 16 * (i + 1), cell::read_at(table, 24 * i));
    }
    cells
}

// Over the record's cell and those in use. The aggregate stands where the others tell what is kept; the count stays.
fn aggregate(record: &Record, table: &[u8; 192], count: usize) -> KeptTold {
    let cells = cells_asked(record, table);
    let asked = &cells[..16 * (count.min(8) + 1)];
    let t = aggregates::tishkolan_values_aggregate(table, count, asked, u32::from(record[1]));
    kept(t.refusal, 0, t.bits, count as u64)
}

fn flags_call(record: &Record, table: &mut [u8; 160], count: usize) -> KeptTold {
    let cell = &record[8..24];
    match record[0] {
        1 => {
            let flags = recorded::word(record, 28);
            let t = layers::tishkolan_flags_set(table, count, cell, flags);
            kept(t.refusal, 0, 0, t.count)
        }
        2 => layers::tishkolan_flags_get(table, count, cell),
        3 => layers::tishkolan_flags_remove(table, count, cell),
        4 => {
            let t = layers::tishkolan_flags_contains(table, count, cell);
            kept(t.refusal, t.value.cast_unsigned(), 0, count as u64)
        }
        5 => {
            layers::tishkolan_flags_clear(table);
            kept(face::answered(), 0, 0, 0)
        }
        _ => kept(face::answered(), NEVER, 0, count as u64),
    }
}

fn values_call(record: &Record, table: &mut [u8; 192], count: usize) -> KeptTold {
    let cell = &record[8..24];
    match record[0] {
        11 => {
            let bits = recorded::bits(record, 24);
            let t = layers::tishkolan_values_set(table, count, cell, bits);
            kept(t.refusal, 0, 0, t.count)
        }
        12 => layers::tishkolan_values_get(table, count, cell),
        13 => layers::tishkolan_values_remove(table, count, cell),
        14 => {
            let t = layers::tishkolan_values_contains(table, count, cell);
            kept(t.refusal, t.value.cast_unsigned(), 0, count as u64)
        }
        15 => {
            layers::tishkolan_values_clear(table);
            kept(face::answered(), 0, 0, 0)
        }
        21 => aggregate(record, table, count),
        _ => kept(face::answered(), NEVER, 0, count as u64),
    }
}

// ---- the record

impl Tables {
    pub fn new() -> Tables {
        Tables {
            flags: [0; 160],
            values: [0; 192],
            coarse: [0; 192],
            flags_used: 0,
            values_used: 0,
            coarse_used: 0,
        }
    }

    // Makes the record's call, and says whether it tells and leaves what the record expects. What has no call's number agrees with nothing.
    pub fn agrees(&mut self, record: &Record) -> bool {
        match record[0] {
            0..=9 => {
                let told = flags_call(record, &mut self.flags, self.flags_used);
                self.flags_used = told.count as usize;
                same_kept(record, told, &self.flags)
            }
            22 => {
                let t = aggregates::tishkolan_values_rollup(
                    &self.values,
                    self.values_used,
                    u32::from(record[1]),
                    &mut self.coarse,
                    self.coarse_used,
                );
                self.coarse_used = t.count as usize;
                same_kept(record, kept(t.refusal, 0, 0, t.count), &self.coarse)
            }
            _ => {
                let told = values_call(record, &mut self.values, self.values_used);
                self.values_used = told.count as usize;
                same_kept(record, told, &self.values)
            }
        }
    }
}
