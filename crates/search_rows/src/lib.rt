// What a search keeps of its known cells: whether a cell is closed, its g, and the record of the cell before it. What each function answers and
// leaves is a function of the bytes, whether they hold rows or not.
#![tactic(auto)]

ghost use Rattle.std.specs.Prelude.{◌≡◌, ◌+◌, ◌≤◌, ◌<◌};
ghost use Rattle.known.specs.Inner.Known.{Roomy, clear_in};
ghost use Rattle.known.specs.Inner.Seek.{find_in};
ghost use Rattle.search_rows.specs.Inner.Rows.{g_in, before_in, row_in, close_in, lower_in, append_in, RecordAt, Linked};

use refusal::Cell;

// In a record, behind its link: whether the cell is closed, its g, and the record of the cell before it.
const MARK_OFFSET: usize = 20;

const COST_OFFSET: usize = 24;

const BEFORE_OFFSET: usize = 32;

// The record of a cell.
pub fn look(workspace: &[u8], room: usize, count: usize, c: Cell) -> Option<usize>
    requires roomy { Roomy workspace.now room }
    requires count_le_room { count ≤ room }
    ensures { result ≡ find_in workspace.now room count c }
{
    known::find(workspace, room, count, c)
}

pub fn is_closed(workspace: &[u8], room: usize, i: usize) -> bool
    requires roomy { Roomy workspace.now room }
    requires i_lt_room { i < room }
    ensures { result ≡ (row_in workspace.now room i).closed }
{
    0 < words::read32_little(
        workspace,
        known::HEAD_WIDTH * room + known::RECORD_WIDTH * i + MARK_OFFSET,
    )
}

pub fn g_at(workspace: &[u8], room: usize, i: usize) -> u64
    requires roomy { Roomy workspace.now room }
    requires i_lt_room { i < room }
    ensures { result ≡ g_in workspace.now room i }
{
    words::read64_little(
        workspace,
        known::HEAD_WIDTH * room + known::RECORD_WIDTH * i + COST_OFFSET,
    )
}

// The record of the cell before.
pub fn before_at(workspace: &[u8], room: usize, count: usize, i: usize) -> usize
    requires { RecordAt workspace.now room count i }
    ensures { result ≡ before_in workspace.now room i }
{
    words::read32_little(
        workspace,
        known::HEAD_WIDTH * room + known::RECORD_WIDTH * i + BEFORE_OFFSET,
    ) as usize
}

// Marks a cell as closed.
pub fn close_at(workspace: &mut [u8], room: usize, i: usize)
    requires roomy { Roomy workspace.old room }
    requires i_lt_room { i < room }
    ensures { workspace.new ≡ close_in workspace.old room i }
{
    words::write32_little(
        workspace,
        known::HEAD_WIDTH * room + known::RECORD_WIDTH * i + MARK_OFFSET,
        1,
    );
}

// The row of record i, not closed: its g and the record of the cell before it from now on.
pub fn lower(workspace: &mut [u8], room: usize, i: usize, g: u64, before: usize)
    requires { Linked workspace.old room i before }
    ensures { workspace.new ≡ lower_in workspace.old room i g before }
{
    let at = known::HEAD_WIDTH * room + known::RECORD_WIDTH * i;
    words::write32_little(workspace, at + MARK_OFFSET, 0);
    words::write64_little(workspace, at + COST_OFFSET, g);
    words::write32_little(workspace, at + BEFORE_OFFSET, before as u32);
}

// A record more, of a cell with its g and the record of the cell before it, which may be its own.
pub fn append(workspace: &mut [u8], room: usize, count: usize, c: Cell, g: u64, before: usize)
    requires { RecordAt workspace.old room (count + 1) before }
    ensures { workspace.new ≡ append_in workspace.old room count c g before }
{
    known::add(workspace, room, count, c);
    lower(workspace, room, count, g, before);
}

// No row, whatever the bytes hold.
pub fn clear(workspace: &mut [u8], room: usize)
    requires { Roomy workspace.old room }
    ensures { workspace.new ≡ clear_in workspace.old room }
{
    known::clear(workspace, room);
}
