// The Rust oracle's answers on searches, replayed: each record is a call by itself, with its own workspaces and output, and names a body elsewhere in the list:
// 64 bytes of what is expected, then the flag layer, then the route. vectors/src/searches.rs has the format of both and the numbers of the calls.
ghost use Rattle.std.specs.Prelude.{◌≡◌, ◌≤◌, length};
ghost use Rattle.replay.specs.Inner.Searches.{record_bytes};

use crate::recorded::Record;
use crate::{lent, recorded};
use face::SearchTold;
use tishkolan::searches;

fn same_told(expected: &Record, told: SearchTold) -> bool {
    lent::same_count(expected, told.refusal, told.cells)
        && told.cost == recorded::bits(expected, 56)
        && told.expansions == recorded::word(expected, 4) as u64
        && told.limit == recorded::count(expected, 0) as u64
        && recorded::same_words(
            expected,
            8,
            told.start_high,
            told.start_low,
            told.goal_high,
            told.goal_low,
        )
}

// Whether the record's call says what is expected, its output begins with the route, and the rest of what it was lent is as it has to be. What has no call's
// number agrees with nothing.
fn call_agrees(record: &Record, expected: &Record, flags: &[u8], route: &[u8]) -> bool {
    if !matches!(record[0], 1..=2) {
        return false;
    }
    let mut known_workspace = [lent::BEFORE; 65536];
    let mut waiting_workspace = [lent::BEFORE; 65536];
    let mut output = [lent::BEFORE; 65536];
    let start = recorded::cell(record, 8, 1);
    let goal = recorded::cell(record, 24, 2);
    let count = record[3] as usize;
    let rule = recorded::count(record, 40) as u32;
    let known_room = recorded::word(record, 56) as usize;
    let waiting_room = recorded::word(record, 60) as usize;
    let known_length = recorded::count(record, 44);
    let waiting_length = recorded::count(record, 46);
    let room = recorded::count(record, 4);
    let known = &mut known_workspace[..known_length];
    let waiting = &mut waiting_workspace[..waiting_length];
    let out = &mut output[..room];
    let told = match record[0] {
        // This call has a limit of its own.
        1 => searches::tishkolan_astar_with_limit(
            start,
            goal,
            flags,
            count,
            rule,
            recorded::bits(record, 48),
            known_room,
            waiting_room,
            known,
            waiting,
            out,
        ),
        2 => searches::tishkolan_astar(
            start,
            goal,
            flags,
            count,
            rule,
            known_room,
            waiting_room,
            known,
            waiting,
            out,
        ),
        _ => return false,
    };
    same_told(expected, told)
        && recorded::holds(&output, route, lent::BEFORE)
        && lent::same_workspace(expected, record, 44, &known_workspace)
        && lent::same_workspace(expected, record, 46, &waiting_workspace)
}

// Whether the record's call says and writes what its body in the list expects. A record whose body is not whole agrees with nothing.
pub fn agrees(list: &[u8], record: &Record) -> bool {
    let body = recorded::count(record, 6);
    let flags = body + 64;
    let route = flags + recorded::count(record, 42);
    if list.len() < route {
        return false;
    }
    let expected = recorded::record_at(list, body);
    let after = route + 16 * recorded::count(&expected, 42);
    after <= list.len() && call_agrees(record, &expected, &list[flags..route], &list[route..after])
}

// How many bytes the records take. Behind them stand their bodies.
#[tactic(auto, unfolding(crate::specs::Inner::Searches::record_bytes))]
pub fn record_bytes(list: &[u8]) -> usize
    ensures { (result ≡ record_bytes list.now) × (result ≤ length list.now) }
{
    if list.len() < 64 {
        return 0;
    }
    let body = words::read16_big(list, 6) as usize;
    if body <= list.len() { body } else { 0 }
}
