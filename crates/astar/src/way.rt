// The way back from the goal: a route is read from the last record to the first, and written from its end. Bytes that hold no way back are refused.
ghost use Rattle.std.specs.Prelude.{◌≡◌, ◌<◌};
ghost use Rattle.general.specs.Changed.{changed};
ghost use Rattle.astar.specs.Inner.Bytes.{Sized, Writable, way_back, length_of, laid_in, answer_in};

use expansion::{Plan, Sizes};
use refusal::{Refusal, Room};
use search::Route;

// How many cells the route to the cell of record i has.
fn cells_to(workspace: &[u8], plan: Plan, sizes: Sizes, i: usize) -> Option<usize>
    requires sized { Sized plan workspace.now sizes }
    requires i_lt_known { i < sizes.known }
    ensures { result ≡ length_of (way_back plan workspace.now sizes i) }
{
    let mut at = i;
    for passed in 0..sizes.count as usize {
        if cell::same(known::cell_at(workspace, plan.known, at), plan.start) {
            return Some(passed + 1);
        }
        let before = search_rows::before_at(workspace, plan.known, sizes.known, at);
        if before >= sizes.known {
            // No record has this number.
            return None;
        }
        at = before;
    }
    Some(sizes.count as usize + 1)
}

// The route to the cell of record i, so many cells, at the front of a buffer that holds it.
fn write(workspace: &[u8], plan: Plan, sizes: Sizes, i: usize, cells: usize, output: &mut [u8])
    requires { Writable plan workspace.now sizes i cells output.old }
    ensures { output.new ≡ laid_in (way_back plan workspace.now sizes i) output.old }
{
    let mut at = i;
    for place in (1..cells).rev() {
        cell_list::put(output, place, known::cell_at(workspace, plan.known, at));
        at = search_rows::before_at(workspace, plan.known, sizes.known, at);
    }
    cell_list::put(output, 0, known::cell_at(workspace, plan.known, at));
}

// The answer of a search that has come to the cell of record i.
pub fn answer(
    workspace: &[u8],
    plan: Plan,
    sizes: Sizes,
    i: usize,
    output: &mut [u8],
) -> Result<Route, Refusal>
    requires sized { Sized plan workspace.now sizes }
    requires i_lt_known { i < sizes.known }
    ensures { changed result output.new ≡ answer_in plan workspace.now sizes i output.old }
{
    let Some(cells) = cells_to(workspace, plan, sizes, i) else {
        return Err(Refusal::BadWorkspace);
    };
    if cells > cell_list::room(output) {
        return Err(Refusal::NoRoom(Room::Output));
    }
    let cost = search_rows::g_at(workspace, plan.known, i);
    write(workspace, plan, sizes, i, cells, output);
    Ok(Route {
        cells,
        cost,
        expansions: sizes.count,
    })
}
