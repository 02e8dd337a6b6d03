// Routes for C: the verdict on one, and the choice between two, as numbers.
ghost use Rattle.std.specs.Prelude.{◌≡◌};
ghost use Rattle.route.specs.Choice.{choice_between};
ghost use Rattle.route.specs.Route.{verdict_of, claim};
ghost use Rattle.table.specs.Records.{layer};

// The verdict on a route from start to goal.
pub fn tishkolan_route_verdict(
    cells: &[u8],
    start: &[u8],
    goal: &[u8],
    cost: u64,
    flags: &[u8],
    count: usize,
    rule: u32,
) -> u32
    ensures { result ≡ verdict_of (claim cells.now start.now goal.now cost) (layer flags.now count) rule }
{
    route::verdict(cells, start, goal, cost, flags, count, rule)
}

// What the loop flies: 1 the sent route, 2 the homing route, 0 neither.
pub fn tishkolan_route_choice(
    sent: &[u8],
    start: &[u8],
    goal: &[u8],
    cost: u64,
    homing: &[u8],
    departure: &[u8],
    home: &[u8],
    price: u64,
    flags: &[u8],
    count: usize,
    rule: u32,
) -> u32
    ensures { let sending = claim sent.now start.now goal.now cost in
        let returning = claim homing.now departure.now home.now price in
        result ≡ choice_between sending returning (layer flags.now count) rule }
{
    route::choice(
        sent, homing, start, goal, cost, departure, home, price, flags, count, rule,
    )
}
