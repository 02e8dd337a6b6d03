// The Rust oracle's answers on points and cells, replayed: each record is a call of the C face by itself, with its arguments and what the oracle said to them.
// vectors/src/main.rs has the format of a record and the numbers of the calls.
ghost use Rattle.std.specs.Prelude.{◌*◌, ◌<◌, ◌≤◌, length};

use crate::recorded::Record;
use crate::{labels, recorded};
use face::RefusalTold;
use tishkolan::{cells, points};

// ---- calls that write to a buffer

// Whether such a call says what the record expects: of the `count` elements that it wrote to `out` the record's one is `expected`, and behind the last each
// item is as it was before; where it refuses, all of them are.
fn same_written<T: Copy + PartialEq>(
    record: &Record,
    told: RefusalTold,
    count: usize,
    expected: &[T],
    out: &[T],
    before: T,
) -> bool
    requires some { 0 < length expected.now }
    requires room { count * length expected.now ≤ length out.now }
{
    let refused = record[5] != 0;
    let end = if refused { 0 } else { count * expected.len() };
    let (front, behind) = out.split_at(end);
    let element = front.chunks_exact(expected.len()).nth(record[1] as usize);
    recorded::same_told(record, told, recorded::answer_at(record))
        && (refused || element.is_some_and(|one| one == expected))
        && behind.iter().all(|item| *item == before)
}

// The same of a call that makes places, of three numbers each.
fn places_written<W: FnOnce(&mut [i32]) -> RefusalTold>(
    record: &Record,
    count: usize,
    write: W,
) -> bool
    requires callable { W.IsAlwaysCallable write }
    requires few { count ≤ 16 }
{
    let mut out = [recorded::UNTOUCHED_NUMBER; 256];
    let told = write(&mut out[..record[4] as usize]);
    let p = recorded::place(record, 40);
    let expected = [p.x, p.y, p.z];
    same_written(
        record,
        told,
        count,
        &expected,
        &out,
        recorded::UNTOUCHED_NUMBER,
    )
}

// The same of one that makes cells, of 16 bytes each.
fn cells_written<W: FnOnce(&mut [u8]) -> RefusalTold>(
    record: &Record,
    count: usize,
    write: W,
) -> bool
    requires callable { W.IsAlwaysCallable write }
    requires few { count ≤ 16 }
{
    let mut out = [recorded::UNTOUCHED; 256];
    let told = write(&mut out[..record[4] as usize]);
    same_written(
        record,
        told,
        count,
        &record[40..56],
        &out,
        recorded::UNTOUCHED,
    )
}

// ---- the record

// Whether the record's call says and writes what the record expects. What has no call's number agrees with nothing.
pub fn agrees(record: &Record) -> bool {
    let a = recorded::place(record, 8);
    let b = recorded::place(record, 20);
    let first = recorded::cell(record, 8, 2);
    let second = recorded::cell(record, 24, 3);
    match record[0] {
        1 => {
            let t = points::tishkolan_square_root(recorded::bits(record, 8));
            recorded::same_bits(record, t.refusal, t.bits, 0, 0)
        }
        2 => {
            let t = points::tishkolan_parity(a.x, a.y, a.z);
            recorded::same_numbers(record, t.refusal, t.value, 0, 0)
        }
        3 => {
            let t = points::tishkolan_opposite(recorded::word(record, 8));
            recorded::same_numbers(record, t.refusal, t.value, 0, 0)
        }
        4 => {
            let valid = points::tishkolan_is_valid_lattice_point(a.x, a.y, a.z);
            recorded::same_numbers(record, face::answered(), valid as i32, 0, 0)
        }
        5 => places_written(record, 14, |out| {
            points::tishkolan_lattice_neighbors(a.x, a.y, a.z, out)
        }),
        6 => places_written(record, 8, |out| {
            points::tishkolan_lattice_children(a.x, a.y, a.z, out)
        }),
        7 => {
            let t = points::tishkolan_lattice_parent(a.x, a.y, a.z);
            recorded::same_numbers(record, t.refusal, t.x, t.y, t.z)
        }
        8 => {
            let t = points::tishkolan_physical_to_lattice(
                recorded::bits(record, 8),
                recorded::bits(record, 16),
                recorded::bits(record, 24),
                record[32],
            );
            recorded::same_numbers(record, t.refusal, t.x, t.y, t.z)
        }
        9 => {
            let t = points::tishkolan_to_physical(a.x, a.y, a.z);
            recorded::same_bits(record, t.refusal, t.x, t.y, t.z)
        }
        10 => {
            let t = points::tishkolan_lattice_distance(a.x, a.y, a.z, b.x, b.y, b.z);
            recorded::same_bits(record, t.refusal, t.bits, 0, 0)
        }
        11 => {
            let t = points::tishkolan_lattice_manhattan_distance(a.x, a.y, a.z, b.x, b.y, b.z);
            recorded::same_numbers(record, t.refusal, t.value, 0, 0)
        }
        12 => cells_written(record, 1, |out| {
            let p = recorded::place(record, 10);
            cells::tishkolan_cell_new(
                record[8], record[9], p.x, p.y, p.z, record[22], record[23], out,
            )
        }),
        13 => cells_written(record, 1, |out| {
            let p = recorded::place(record, 10);
            cells::tishkolan_cell_from_coords(record[8], record[9], p.x, p.y, p.z, out)
        }),
        14 => recorded::same_fields(record, cells::tishkolan_cell_fields(first)),
        15 => {
            let t = cells::tishkolan_cell_lattice_coord(first);
            recorded::same_numbers(record, t.refusal, t.x, t.y, t.z)
        }
        16 => {
            let t = cells::tishkolan_cell_compare(first, second);
            recorded::same_numbers(record, t.refusal, t.value, 0, 0)
        }
        17 => {
            let t = cells::tishkolan_cell_is_plain(first);
            recorded::same_numbers(record, t.refusal, t.value, 0, 0)
        }
        18 => cells_written(
            record,
            14,
            |out| cells::tishkolan_cell_neighbors(first, out),
        ),
        19 => cells_written(record, 8, |out| cells::tishkolan_cell_children(first, out)),
        20 => cells_written(record, 1, |out| cells::tishkolan_cell_parent(first, out)),
        21 => cells_written(record, 1, |out| {
            cells::tishkolan_cell_ancestor(first, record[24], out)
        }),
        22 => {
            let t = cells::tishkolan_cell_between(first, second);
            recorded::same_numbers(record, t, 0, 0, 0)
        }
        23 => {
            let t = cells::tishkolan_cell_distance(first, second);
            recorded::same_bits(record, t.refusal, t.bits, 0, 0)
        }
        24 => {
            let t = cells::tishkolan_cell_manhattan_distance(first, second);
            recorded::same_numbers(record, t.refusal, t.value, 0, 0)
        }
        25 => labels::written_agrees(record),
        26 => labels::read_agrees(record),
        _ => false,
    }
}
