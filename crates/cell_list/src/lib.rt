// A list of cells as the answer of a call, in a buffer that its caller lends: rings, lines and routes fill its front and leave the rest.
#![tactic(auto)]

ghost use Rattle.std.specs.Prelude.{◌≡◌, ◌+◌, ◌*◌, ◌≤◌, length};
ghost use Rattle.cell_list.specs.Listing.{room_in};
ghost use Rattle.cell_list.specs.Inner.Listing.{cell_put};
ghost use Rattle.cell.specs.Bytes.{cell_width};

use refusal::Cell;

// How many cells the buffer holds.
pub fn room(output: &[u8]) -> usize
    ensures { result ≡ room_in output.now }
{
    output.len() / cell::CELL_WIDTH
}

// The cell at an index of the list.
pub fn put(output: &mut [u8], i: usize, c: Cell)
    requires { cell_width * (i + 1) ≤ length output.old }
    ensures { output.new ≡ cell_put output.old i c }
{
    cell::write_at(output, cell::CELL_WIDTH * i, c);
}
