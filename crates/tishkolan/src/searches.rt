// The search for C: a route between two cells, found in two workspaces that C lends.
ghost use Rattle.std.specs.Prelude.{◌≡◌};
ghost use Rattle.astar.specs.Call.{search_in, default_limit, asking, buffers};
ghost use Rattle.face.specs.Searches.{search_told, of_searched};
ghost use Rattle.table.specs.Records.{layer};
ghost use Rattle.known.specs.Workspace.{in_rooms};

use face::SearchTold;

// A route from start to goal that closes no more cells than a limit.
pub fn tishkolan_astar_with_limit(
    start: &[u8],
    goal: &[u8],
    flags: &[u8],
    flags_count: usize,
    rule: u32,
    limit: u64,
    known: usize,
    waiting: usize,
    known_workspace: &mut [u8],
    waiting_workspace: &mut [u8],
    out: &mut [u8],
) -> SearchTold
    ensures { let asked = asking start.now goal.now (in_rooms known waiting) limit rule (layer flags.now flags_count) in
        let lent = buffers known_workspace.old waiting_workspace.old out.old in
        search_told result known_workspace.new waiting_workspace.new out.new ≡ of_searched (search_in asked lent) }
{
    astar::call::astar_with_limit(
        start,
        goal,
        known,
        waiting,
        limit,
        rule,
        flags,
        flags_count,
        known_workspace,
        waiting_workspace,
        out,
    )
    .into()
}

// The same with a limit of 100,000.
pub fn tishkolan_astar(
    start: &[u8],
    goal: &[u8],
    flags: &[u8],
    flags_count: usize,
    rule: u32,
    known: usize,
    waiting: usize,
    known_workspace: &mut [u8],
    waiting_workspace: &mut [u8],
    out: &mut [u8],
) -> SearchTold
    ensures { let asked = asking start.now goal.now (in_rooms known waiting) default_limit rule (layer flags.now flags_count) in
        let lent = buffers known_workspace.old waiting_workspace.old out.old in
        search_told result known_workspace.new waiting_workspace.new out.new ≡ of_searched (search_in asked lent) }
{
    astar::call::astar(
        start,
        goal,
        known,
        waiting,
        rule,
        flags,
        flags_count,
        known_workspace,
        waiting_workspace,
        out,
    )
    .into()
}
