// Records written and moved within a table. Other crates lend these calls tables of their own.
ghost use Rattle.std.specs.Prelude.{◌≡◌, ◌++◌, ◌+◌, ◌-◌, ◌*◌, ◌≤◌, length, take, drop, replicate};
ghost use Rattle.std.proofs.Math.Seq.{paste};
ghost use Rattle.table.specs.Records.{row_bytes, keeping};
ghost use Rattle.table.specs.Inner.Places.{Wide, HasRecord};

use crate::FLAG_WIDTH;
use refusal::Cell;

// A record's bytes: the cell, then what is kept of it, of which a record of 20 bytes has the lower 32 bits.
pub fn put_record(table: &mut [u8], width: usize, i: usize, c: Cell, kept: u64)
    requires wide { Wide width }
    requires i_in_bounds { width * (i + 1) ≤ length table.old }
    ensures { let t = table.old in
        table.new ≡ take (width * i) t ++ (row_bytes width (keeping c kept) ++ drop (width * (i + 1)) t) }
{
    let at = width * i;
    cell::write_at(table, at, c);
    if width == FLAG_WIDTH {
        words::write32_big(table, at + cell::CELL_WIDTH, (kept % 4294967296) as u32);
    } else {
        words::write64_big(table, at + cell::CELL_WIDTH, kept);
    }
}

// The records from i on, each one further; record i still stands where it was.
pub fn open_record(table: &mut [u8], width: usize, i: usize, count: usize)
    requires { HasRecord width table.old (count + 1) i }
    ensures { table.new ≡ paste table.old (width * (i + 1)) (drop (width * i) table.old) (width * (count - i)) }
{
    table.copy_within(width * i..width * count, width * (i + 1));
}

// The records after i, each one back, so that record i is gone; the last one, which is free now, is zeroed.
pub fn close_record(table: &mut [u8], width: usize, i: usize, count: usize)
    requires { HasRecord width table.old count i }
    ensures { let t = table.old in
        table.new
        ≡ take (width * i) t ++ (take (width * (count - (i + 1))) (drop (width * (i + 1)) t) ++ (replicate width 0 ++ drop (width * count) t)) }
{
    table.copy_within(width * (i + 1)..width * count, width * i);
    let last = width * (count - 1);
    let end = width * count;
    words::bytes::zero(table, last, end);
}
