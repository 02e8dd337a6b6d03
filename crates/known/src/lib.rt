// The cells that a walk through the lattice knows, in bytes that its caller lends: records in the order of first sight, found by hash chains.
#![tactic(auto)]

ghost use Rattle.std.specs.Prelude.{◌≡◌, ◌+◌, ◌<◌, ◌≤◌};
ghost use Rattle.known.specs.Inner.Known.{Roomy, mixed_of, bucket_of, cell_in, add_in, clear_in};
ghost use Rattle.known.specs.Inner.Seek.{find_in};
ghost use Rattle.known.specs.Workspace.{is_room, zeros, most_room};

use refusal::Cell;

// The most cells or entries that a room may be for.
pub const MOST_ROOM: usize = 65536;

// The bytes that a workspace needs for each known cell: the head of a chain, and a record.
pub const KNOWN_WIDTH: usize = 44;

pub const HEAD_WIDTH: usize = 4;

pub const RECORD_WIDTH: usize = 40;

// In a record: the link, behind the cell.
const LINK_OFFSET: usize = 16;

// One word of 32 bits from a cell's four. Cells that stand together fall apart: each factor is 2^32 over a power of the root of a^4 = a + 1, so that
// no small steps of x, y and z add up to nearly nothing.
fn mixed(c: Cell) -> u64
    ensures { (result ≡ mixed_of c) × (result < 4294967296) }
{
    let x = c.low / 4294967296 * 3518319155 % 4294967296;
    let y = c.high % 4294967296 * 2882110345 % 4294967296;
    let z = c.high / 4294967296 * 2360945575 % 4294967296;
    let fields = c.low % 4294967296 * 1934021721 % 4294967296;
    (x + y + z + fields) % 4294967296
}

// The chain on which a cell stands, of as many chains as there is room for cells.
fn bucket(c: Cell, room: usize) -> usize
    requires room_le_most_room { room ≤ most_room }
    requires room_nonzero { 0 < room }
    ensures { (result ≡ bucket_of c room) × (result < room) }
{
    (mixed(c) * (room as u64) / 4294967296) as usize
}

// The cell of record i.
pub fn cell_at(workspace: &[u8], room: usize, i: usize) -> Cell
    requires roomy { Roomy workspace.now room }
    requires i_lt_room { i < room }
    ensures { result ≡ cell_in workspace.now room i }
{
    let at = HEAD_WIDTH * room + RECORD_WIDTH * i;
    Cell {
        high: words::read64_little(workspace, at),
        low: words::read64_little(workspace, at + 8),
    }
}

// Along one chain, from its last record back to its first. A head above the count, or a link that does not fall, ends the chain.
pub fn find(workspace: &[u8], room: usize, count: usize, c: Cell) -> Option<usize>
    requires roomy { Roomy workspace.now room }
    requires count_le_room { count ≤ room }
    ensures { result ≡ find_in workspace.now room count c }
{
    let mut link = words::read32_little(workspace, HEAD_WIDTH * bucket(c, room)) as usize;
    let mut bound = count;
    loop {
        // One test for both: a link of 0, which is none, is far above the bound.
        let i = link.wrapping_sub(1);
        if i >= bound {
            return None;
        }
        if cell::same(cell_at(workspace, room, i), c) {
            return Some(i);
        }
        bound = i;
        link = words::read32_little(
            workspace,
            HEAD_WIDTH * room + RECORD_WIDTH * i + LINK_OFFSET,
        ) as usize;
    }
}

// A cell's record behind the others, the last on its chain.
pub fn add(workspace: &mut [u8], room: usize, count: usize, c: Cell)
    requires roomy { Roomy workspace.old room }
    requires count_lt_room { count < room }
    ensures { workspace.new ≡ add_in workspace.old room count c }
{
    let head = HEAD_WIDTH * bucket(c, room);
    let at = HEAD_WIDTH * room + RECORD_WIDTH * count;
    let last = words::read32_little(workspace, head);
    words::write64_little(workspace, at, c.high);
    words::write64_little(workspace, at + 8, c.low);
    words::write32_little(workspace, at + LINK_OFFSET, last);
    words::write32_little(workspace, head, (count + 1) as u32);
}

// No cell is known, whatever the bytes hold.
pub fn clear(workspace: &mut [u8], room: usize)
    requires { Roomy workspace.old room }
    ensures { workspace.new ≡ clear_in workspace.old room }
{
    workspace[..HEAD_WIDTH * room].fill(0);
}

// A room is named from 1 to 65,536.
pub fn is_room(n: usize) -> bool
    ensures { result ≡ is_room n }
{
    (1..=MOST_ROOM).contains(&n)
}

// Zeros in the whole of a workspace, when the call that it was lent to returns.
pub fn wipe(workspace: &mut [u8])
    ensures { workspace.new ≡ zeros workspace.old }
{
    workspace.fill(0);
}
