// Rings and shells around a cell, breadth first: the cells at one number of steps after the other. The known cells stand in the workspace in the
// order of first sight, and that is also the order in which they wait; nothing is written to the output before all is found.
#![tactic(auto)]

ghost use Rattle.std.specs.Prelude.{◌≡◌, true, false, ◌≤◌, length};
ghost use Rattle.cell.specs.Bytes.{from_bytes_of};
ghost use Rattle.general.specs.Changed.{changed};
ghost use Rattle.known.specs.Inner.Known.{Roomy, Known};
ghost use Rattle.cell_list.specs.Listing.{room_in, cells_laid};
ghost use Rattle.ring.specs.Ring.{see, see_all, expand, level, list_all, levels, walk_of, listed_by, has_rooms, ringed, ring_in};
ghost use Rattle.ring.specs.Inner.State.{cells_between, sight_in, Shows, Sees, Lists, Reaches, Listable, Finishable, walked_from};
ghost use Rattle.known.specs.Workspace.{in_rooms};

use refusal::{Cell, Refusal, Room};
use std::ops::Range;

// How many known cells, waiting cells and listed cells there is room for.
#[derive(Clone, Copy)]
pub struct Rooms {
    pub known: usize,
    pub waiting: usize,
    pub output: usize,
}

// One neighbour, while the records from `next` on wait.
fn see(
    workspace: &mut [u8],
    rooms: Rooms,
    next: usize,
    count: usize,
    c: Cell,
) -> Result<usize, Refusal>
    requires known { Known workspace.old rooms.known count }
    requires next_le_count { next ≤ count }
    ensures { Sees rooms next count workspace.old workspace.new result (λ others. see rooms others c) }
{
    if known::find(workspace, rooms.known, count, c).is_some() {
        return Ok(count);
    }
    if count >= rooms.known {
        return Err(Refusal::NoRoom(Room::Known));
    }
    if count - next >= rooms.waiting {
        return Err(Refusal::NoRoom(Room::Waiting));
    }
    known::add(workspace, rooms.known, count, c);
    Ok(count + 1)
}

// One neighbour after the other.
fn see_all(
    workspace: &mut [u8],
    rooms: Rooms,
    next: usize,
    count: usize,
    cells: [Cell; 14],
) -> Result<usize, Refusal>
    requires known { Known workspace.old rooms.known count }
    requires next_le_count { next ≤ count }
    ensures { Sees rooms next count workspace.old workspace.new result (λ others. see_all rooms others cells) }
{
    let mut n = count;
    for c in cells {
        n = see(workspace, rooms, next, n, c)?;
    }
    Ok(n)
}

// One cell's neighbours.
#[tactic(auto, unfolding(crate::specs::Ring::expand))]
fn expand(
    workspace: &mut [u8],
    rooms: Rooms,
    next: usize,
    count: usize,
    c: Cell,
) -> Result<usize, Refusal>
    requires known { Known workspace.old rooms.known count }
    requires next_le_count { next ≤ count }
    ensures { Sees rooms next count workspace.old workspace.new result (λ others. expand rooms others c) }
{
    let cells = cell::get_neighbors(c)?;
    see_all(workspace, rooms, next, count, cells)
}

// The cells at one number of steps, the last ones known so far: records from one up to another.
fn level(
    workspace: &mut [u8],
    every: bool,
    rooms: Rooms,
    from: usize,
    to: usize,
) -> Result<usize, Refusal>
    requires known { Known workspace.old rooms.known to }
    requires from_le_to { from ≤ to }
    ensures fact { let w = workspace.old in
        let cells = cells_between w rooms.known from to in
        let s = sight_in every w rooms.known to to from in
        Shows every w workspace.new rooms.known to to to result (level every rooms cells s) }
    ensures lists { Lists every rooms from to result }
{
    let mut count = to;
    for i in from..to {
        if every && i >= rooms.output {
            return Err(Refusal::NoRoom(Room::Output));
        }
        let c = known::cell_at(workspace, rooms.known, i);
        count = expand(workspace, rooms, i + 1, count, c)?;
    }
    Ok(count)
}

// Level after level, until the last cells are found or a level is empty: the records of the last ones.
fn levels(workspace: &mut [u8], every: bool, rooms: Rooms, k: u64) -> Result<Range<usize>, Refusal>
    requires { Known workspace.old rooms.known 1 }
    ensures { let w = workspace.old in
        let cells = cells_between w rooms.known 0 1 in
        let s = sight_in every w rooms.known 1 1 0 in
        Reaches every w workspace.new rooms result (levels every rooms k cells s) }
{
    let mut from = 0;
    let mut to = 1;
    for _ in 0..k {
        if from == to {
            break;
        }
        let more = level(workspace, every, rooms, from, to)?;
        from = to;
        to = more;
    }
    Ok(from..to)
}

// The cells of the records from one up to another at the front of a buffer that holds them.
fn write(workspace: &[u8], room: usize, from: usize, to: usize, output: &mut [u8])
    requires { Listable workspace.now room from to output.old }
    ensures { output.new ≡ cells_laid (cells_between workspace.now room from to) output.old }
{
    for i in 0..to - from {
        cell_list::put(output, i, known::cell_at(workspace, room, from + i));
    }
}

// The answer of a walk that has come to its last cells: a ring has listed all before them.
fn finish(
    workspace: &[u8],
    every: bool,
    rooms: Rooms,
    last: Range<usize>,
    output: &mut [u8],
) -> Result<usize, Refusal>
    requires { Finishable every workspace.now rooms last output.old }
    ensures { let w = workspace.now in
        let cells = cells_between w rooms.known last.start last.end in
        let s = sight_in every w rooms.known last.end last.end last.start in
        changed result output.new ≡ listed_by (list_all rooms cells s) output.old }
{
    let first = if every { 0 } else { last.start };
    let count = last.end - first;
    if count > rooms.output {
        return Err(Refusal::NoRoom(Room::Output));
    }
    write(workspace, rooms.known, first, last.end, output);
    Ok(count)
}

// The walk from a centre, in a workspace that may hold anything.
fn walk(
    workspace: &mut [u8],
    every: bool,
    rooms: Rooms,
    k: u64,
    c: Cell,
    output: &mut [u8],
) -> Result<usize, Refusal>
    requires roomy { Roomy workspace.old rooms.known }
    requires output_value { rooms.output ≡ room_in output.old }
    ensures output_after { changed result output.new ≡ listed_by (walk_of every rooms k c) output.old }
    ensures workspace_len_unchanged { length workspace.new ≡ length workspace.old }
{
    known::clear(workspace, rooms.known);
    known::add(workspace, rooms.known, 0, c);
    let last = levels(workspace, every, rooms, k)?;
    finish(workspace, every, rooms, last, output)
}

// The walk from the centre that the bytes hold.
fn walk_from(
    center: &[u8],
    every: bool,
    rooms: Rooms,
    k: u64,
    workspace: &mut [u8],
    output: &mut [u8],
) -> Result<usize, Refusal>
    requires roomy { Roomy workspace.old rooms.known }
    requires output_value { rooms.output ≡ room_in output.old }
    ensures output_after { changed result output.new ≡ walked_from (from_bytes_of center.now) every rooms k output.old }
    ensures workspace_len_unchanged { length workspace.new ≡ length workspace.old }
{
    let c = cell::from_bytes(center)?;
    walk(workspace, every, rooms, k, c, output)
}

#[tactic(auto, unfolding(crate::specs::Ring::has_rooms))]
fn has_rooms(known: usize, waiting: usize, workspace: &[u8]) -> bool
    ensures { result ≡ has_rooms known waiting workspace.now }
{
    known::is_room(known)
        && known::is_room(waiting)
        && known::KNOWN_WIDTH * known <= workspace.len()
}

// A ring or a shell. The workspace is zeroed when the call returns, whatever it answers, but for a workspace that is too small.
#[tactic(auto, unfolding(crate::specs::Ring::ring_in))]
fn around(
    center: &[u8],
    every: bool,
    k: u64,
    known: usize,
    waiting: usize,
    workspace: &mut [u8],
    output: &mut [u8],
) -> Result<usize, Refusal>
    ensures { ringed result workspace.new output.new
        ≡ ring_in every center.now k (in_rooms known waiting) workspace.old output.old }
{
    if !has_rooms(known, waiting, workspace) {
        return Err(Refusal::BadWorkspace);
    }
    let rooms = Rooms {
        known,
        waiting,
        output: cell_list::room(output),
    };
    let answer = walk_from(center, every, rooms, k, workspace, output);
    known::wipe(workspace);
    answer
}

// The cells within k steps of a centre into a buffer, and how many they are.
pub fn k_ring(
    center: &[u8],
    k: u64,
    known: usize,
    waiting: usize,
    workspace: &mut [u8],
    output: &mut [u8],
) -> Result<usize, Refusal>
    ensures { ringed result workspace.new output.new
        ≡ ring_in true center.now k (in_rooms known waiting) workspace.old output.old }
{
    around(center, true, k, known, waiting, workspace, output)
}

// The cells at exactly k steps.
pub fn k_shell(
    center: &[u8],
    k: u64,
    known: usize,
    waiting: usize,
    workspace: &mut [u8],
    output: &mut [u8],
) -> Result<usize, Refusal>
    ensures { ringed result workspace.new output.new
        ≡ ring_in false center.now k (in_rooms known waiting) workspace.old output.old }
{
    around(center, false, k, known, waiting, workspace, output)
}
