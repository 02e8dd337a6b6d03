// What is lent to rings, lines and searches: each byte of it is the same before a call, and after it a workspace is all zero.
// The records of rings and lines, and the bodies of those of searches, have their refusals and counts at the same places.
ghost use Rattle.std.specs.Prelude.{◌+◌, ◌≤◌};

use crate::recorded;
use crate::recorded::Record;
use face::RefusalTold;

// As much as a length of two bytes can say.
pub type Room = [u8; 65536];

// What each byte is before a call.
pub const BEFORE: u8 = 0xAA;

// The number of the refusal of a workspace, which then stays as it was.
const WORKSPACE_REFUSED: u8 = 11;

// Whether the refusal and the count are the record's.
pub fn same_count(record: &Record, told: RefusalTold, count: u64) -> bool {
    recorded::same_refusal(record, told, 3, 41, 44) && count == recorded::count(record, 42) as u64
}

// Whether a workspace is all zero as far as it was lent, or all as it was where it is refused. The record has its length at `at`.
pub fn same_workspace(expected: &Record, record: &Record, at: usize, workspace: &Room) -> bool
    requires { at + 2 ≤ 320 }
{
    let left = if expected[3] == WORKSPACE_REFUSED {
        BEFORE
    } else {
        0
    };
    recorded::filled(&workspace[..recorded::count(record, at)], left)
}
