// The Rust oracle's answers on rings and lines, replayed: each record is a call by itself, with its own workspace and output.
// vectors/src/paths.rs has the format of a record and the numbers of the calls.
use crate::recorded::Record;
use crate::{lent, recorded};
use tishkolan::{paths, rings};

// Whether the record's call says and writes what the record expects: the bytes lent of the output have its check number. What has no call's number agrees
// with nothing.
pub fn agrees(record: &Record) -> bool {
    if !matches!(record[0], 1..=3) {
        return false;
    }
    let mut workspace = [lent::BEFORE; 65536];
    let mut output = [lent::BEFORE; 65536];
    let first = recorded::cell(record, 8, 1);
    let k = recorded::bits(record, 24);
    let known = recorded::word(record, 32) as usize;
    let waiting = recorded::word(record, 36) as usize;
    let length = recorded::count(record, 6);
    let room = recorded::count(record, 4);
    let lent = &mut workspace[..length];
    let out = &mut output[..room];
    let told = match record[0] {
        1 => rings::tishkolan_k_ring(first, k, known, waiting, lent, out),
        2 => rings::tishkolan_k_shell(first, k, known, waiting, lent, out),
        // A line has no workspace.
        3 => paths::tishkolan_trace_line(first, recorded::cell(record, 24, 2), out),
        _ => return false,
    };
    lent::same_count(record, told.refusal, told.count)
        && recorded::check_number(&output[..room]) == recorded::bits(record, 56)
        && lent::same_workspace(record, record, 6, &workspace)
}
