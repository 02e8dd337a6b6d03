// The whole search: from lent bytes to a route in a buffer.
ghost use Rattle.std.specs.Prelude.{◌≡◌, [], ◌∷◌, length, Ok};
ghost use Rattle.refusal.specs.Refusals.{raw_of};
ghost use Rattle.cell.specs.Cell.{distance_cells};
ghost use Rattle.cell.specs.Bytes.{from_bytes_of};
ghost use Rattle.table.specs.Records.{rows_of, flag_width, layer};
ghost use Rattle.general.specs.Changed.{changed};
ghost use Rattle.search.specs.Search.{begin, run, found};
ghost use Rattle.search.specs.Plan.{distance_bits, at_end, pops_for, search_of, endpoints};
ghost use Rattle.known.specs.Workspace.{in_rooms};
ghost use Rattle.search.specs.SearchOutcome.{searched};
ghost use Rattle.expansion.specs.Inner.State.{problem_of};
ghost use Rattle.astar.specs.Answer.{answered_in};
ghost use Rattle.expansion.specs.Inner.Bytes.{Rooms};
ghost use Rattle.astar.specs.Inner.Bytes.{begin_in, whole_in, end_in, SizedEnd};
ghost use Rattle.astar.specs.Call.{has_rooms, found_in_layer, found_from_bytes, search_in, default_limit, asking, buffers};
ghost use Rattle.astar.specs.Inner.Call.{Ready};

use crate::way;
use expansion::{Plan, Sizes, Step};
use refusal::{Cell, Refusal, Room};
use search::Route;
use waiting::Entry;

// The limit of a search that is given none.
const DEFAULT_LIMIT: u64 = 100_000;

// The bytes of a workspace behind its known cells, which no call uses yet.
const RESERVED: usize = 64;

// The start is known and waits.
#[tactic(auto, unfolding(crate::specs::Inner::Bytes::begin_in))]
fn begin(workspace: &mut [u8], heap: &mut [u8], plan: Plan) -> Result<Sizes, Refusal>
    requires { Rooms plan.known plan.waiting workspace.old heap.old }
    ensures { (workspace.new, heap.new, result) ≡ begin_in plan workspace.old heap.old }
{
    let start = plan.start;
    let f = expansion::ahead(start, plan.goal)?;
    search_rows::clear(workspace, plan.known);
    search_rows::append(workspace, plan.known, 0, start, 0, 0);
    waiting::push(
        heap,
        0,
        Entry {
            f,
            cell: start,
            g: 0,
        },
    );
    Ok(Sizes {
        known: 1,
        waiting: 1,
        count: 0,
    })
}

// A run that is to count more cells than are ever counted goes to the end.
const NO_BOUND: u64 = 0xFFFF_FFFF_FFFF_FFFF;

// From the start to the last step.
#[tactic(auto, unfolding(crate::specs::Inner::Bytes::whole_in))]
fn run_from_start(
    workspace: &mut [u8],
    heap: &mut [u8],
    flags: &[u8],
    count: usize,
    plan: Plan,
) -> Result<Step, Refusal>
    requires { Ready plan workspace.old heap.old flags.now count }
    ensures { let rows = rows_of flag_width flags.now count in
        (workspace.new, heap.new, result) ≡ whole_in plan rows workspace.old heap.old }
{
    let sizes = begin(workspace, heap, plan)?;
    expansion::run(workspace, heap, flags, count, plan, sizes, NO_BOUND)
}

// What a search that has ended says.
fn end(workspace: &[u8], plan: Plan, step: Step, output: &mut [u8]) -> Result<Route, Refusal>
    requires { SizedEnd plan workspace.now (Ok step) }
    ensures { changed result output.new ≡ end_in plan workspace.now (Ok step) output.old }
{
    match step {
        Step::Arrived(sizes) => {
            let goal = plan.goal;
            match search_rows::look(workspace, plan.known, sizes.known, goal) {
                Some(i) => way::answer(workspace, plan, sizes, i, output),
                // The goal of a search that has come to it is known, else these bytes hold no search.
                None => Err(Refusal::BadWorkspace),
            }
        }
        // A search that goes on has not ended.
        Step::Going(_) => Err(Refusal::BadWorkspace),
    }
}

// Between two ends of one parity each that are not the same.
fn between(
    workspace: &mut [u8],
    heap: &mut [u8],
    flags: &[u8],
    count: usize,
    plan: Plan,
    output: &mut [u8],
) -> Result<Route, Refusal>
    requires { Ready plan workspace.old heap.old flags.now count }
    ensures output_after { let P = problem_of plan flags.now count in
        let far = distance_bits (distance_cells plan.start plan.goal) in
        changed result output.new ≡ answered_in (at_end (run P (pops_for plan.known plan.waiting) (begin P far))) output.old }
    ensures workspace_len_unchanged { length workspace.new ≡ length workspace.old }
    ensures heap_len_unchanged { length heap.new ≡ length heap.old }
{
    let last = run_from_start(workspace, heap, flags, count, plan)?;
    end(workspace, plan, last, output)
}

// A route of one cell, which costs nothing.
fn stay(c: Cell, output: &mut [u8]) -> Result<Route, Refusal>
    ensures { changed result output.new ≡ answered_in (found (raw_of c ∷ []) 0 0) output.old }
{
    if cell_list::room(output) == 0 {
        return Err(Refusal::NoRoom(Room::Output));
    }
    cell_list::put(output, 0, c);
    Ok(Route {
        cells: 1,
        cost: 0,
        expansions: 0,
    })
}

// The search between two cells.
#[tactic(auto, unfolding(search::specs::Plan::search_of))]
fn search(
    workspace: &mut [u8],
    heap: &mut [u8],
    flags: &[u8],
    count: usize,
    plan: Plan,
    output: &mut [u8],
) -> Result<Route, Refusal>
    requires { Ready plan workspace.old heap.old flags.now count }
    ensures output_after { let rows = rows_of flag_width flags.now count in
        let ends = endpoints plan.start plan.goal in
        let rooms = in_rooms plan.known plan.waiting in
        changed result output.new ≡ answered_in (search_of ends rooms plan.limit plan.rule rows) output.old }
    ensures workspace_len_unchanged { length workspace.new ≡ length workspace.old }
    ensures heap_len_unchanged { length heap.new ≡ length heap.old }
{
    let start = plan.start;
    let goal = plan.goal;
    if cell::same(start, goal) {
        return stay(start, output);
    }
    lattice::parity_of(cell::coord(start))?;
    lattice::parity_of(cell::coord(goal))?;
    between(workspace, heap, flags, count, plan, output)
}

#[tactic(auto, unfolding(crate::specs::Call::has_rooms))]
fn has_rooms(known: usize, waiting: usize, workspace: &[u8], heap: &[u8]) -> bool
    ensures { result ≡ has_rooms known waiting workspace.now heap.now }
{
    known::is_room(known)
        && known::is_room(waiting)
        && known::KNOWN_WIDTH * known + RESERVED <= workspace.len()
        && waiting::ENTRY_WIDTH * waiting <= heap.len()
}

// The search in a flag layer, under a rule.
fn search_in_layer(
    workspace: &mut [u8],
    heap: &mut [u8],
    flags: &[u8],
    count: usize,
    plan: Plan,
    output: &mut [u8],
) -> Result<Route, Refusal>
    requires { Rooms plan.known plan.waiting workspace.old heap.old }
    ensures output_after { let ends = endpoints plan.start plan.goal in
        let rooms = in_rooms plan.known plan.waiting in
        changed result output.new
        ≡ answered_in (found_in_layer ends rooms plan.limit plan.rule (layer flags.now count)) output.old }
    ensures workspace_len_unchanged { length workspace.new ≡ length workspace.old }
    ensures heap_len_unchanged { length heap.new ≡ length heap.old }
{
    if !table::is_sound(flags, table::FLAG_WIDTH, count) {
        return Err(Refusal::BadLayer);
    }
    if plan.rule >= 2 {
        return Err(Refusal::BadRule);
    }
    search(workspace, heap, flags, count, plan, output)
}

// The search between the cells of some bytes, with rooms that suffice.
fn search_from(
    start: &[u8],
    goal: &[u8],
    known: usize,
    waiting: usize,
    limit: u64,
    rule: u32,
    flags: &[u8],
    count: usize,
    workspace: &mut [u8],
    heap: &mut [u8],
    output: &mut [u8],
) -> Result<Route, Refusal>
    requires { Rooms known waiting workspace.old heap.old }
    ensures output_after { let s = from_bytes_of start.now in
        let e = from_bytes_of goal.now in
        changed result output.new
        ≡ answered_in (found_from_bytes s e (in_rooms known waiting) limit rule (layer flags.now count)) output.old }
    ensures workspace_len_unchanged { length workspace.new ≡ length workspace.old }
    ensures heap_len_unchanged { length heap.new ≡ length heap.old }
{
    let start = cell::from_bytes(start)?;
    let goal = cell::from_bytes(goal)?;
    let plan = Plan {
        start,
        goal,
        known,
        waiting,
        limit,
        rule,
    };
    search_in_layer(workspace, heap, flags, count, plan, output)
}

// The search, refused where it closes more cells than a limit. Both workspaces are zeroed when the call returns, whatever it answers, but for
// workspaces that are too small.
#[tactic(auto, unfolding(crate::specs::Call::search_in))]
pub fn astar_with_limit(
    start: &[u8],
    goal: &[u8],
    known: usize,
    waiting: usize,
    limit: u64,
    rule: u32,
    flags: &[u8],
    count: usize,
    workspace: &mut [u8],
    heap: &mut [u8],
    output: &mut [u8],
) -> Result<Route, Refusal>
    ensures { let asked = asking start.now goal.now (in_rooms known waiting) limit rule (layer flags.now count) in
        let lent = buffers workspace.old heap.old output.old in
        searched result workspace.new heap.new output.new ≡ search_in asked lent }
{
    if !has_rooms(known, waiting, workspace, heap) {
        return Err(Refusal::BadWorkspace);
    }
    let answer = search_from(
        start, goal, known, waiting, limit, rule, flags, count, workspace, heap, output,
    );
    known::wipe(workspace);
    known::wipe(heap);
    answer
}

// The search with a limit of 100,000.
pub fn astar(
    start: &[u8],
    goal: &[u8],
    known: usize,
    waiting: usize,
    rule: u32,
    flags: &[u8],
    count: usize,
    workspace: &mut [u8],
    heap: &mut [u8],
    output: &mut [u8],
) -> Result<Route, Refusal>
    ensures { let asked = asking start.now goal.now (in_rooms known waiting) default_limit rule (layer flags.now count) in
        let lent = buffers workspace.old heap.old output.old in
        searched result workspace.new heap.new output.new ≡ search_in asked lent }
{
    astar_with_limit(
        start,
        goal,
        known,
        waiting,
        DEFAULT_LIMIT,
        rule,
        flags,
        count,
        workspace,
        heap,
        output,
    )
}
