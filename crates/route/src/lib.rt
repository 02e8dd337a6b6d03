// The route checker: what keeps the drone off the frame. One pass over the list; the layer is tested once, then each entered cell is found by halves.
#![tactic(auto)]

ghost use Rattle.std.specs.Prelude.{true, ◌≡◌, ◌≤◌, nat_abs, ◌-ℤ◌, length};
ghost use Rattle.cell.specs.Lists.{is_list, cells_of};
ghost use Rattle.table.specs.Records.{rows_of, is_sound, flag_width, layer};
ghost use Rattle.route.specs.Inner.Near.{short_square, is_near};
ghost use Rattle.route.specs.Route.{is_step, cost_between, is_shut, arrived, judge_walk, judge_cells, are_lists, verdict_of, claim};
ghost use Rattle.route.specs.Choice.{choice_between, Chosen};
ghost use Rattle.route.specs.Inner.Walks.{walk_of};
ghost use Rattle.route.specs.Inner.Numbers.{fault_number, judged, flown_number};
ghost use Rattle.cell.specs.Bytes.{cell_width};

use refusal::{Cell, Coord, Refusal};

// The square of the difference on one axis; 5 stands for any above 4.
fn short_square(a: i32, b: i32) -> u32
    ensures { (result ≡ short_square (nat_abs (b -ℤ a))) × (result ≤ 5) }
{
    let d = b.abs_diff(a);
    if d <= 2 { d * d } else { 5 }
}

// Whether two places are as far apart as neighbours are.
#[tactic(auto, unfolding(crate::specs::Inner::Near::is_near))]
fn is_near(a: Coord, b: Coord) -> bool
    ensures { result ≡ is_near a b }
{
    let s = short_square(a.x, b.x) + short_square(a.y, b.y) + short_square(a.z, b.z);
    3 <= s && s <= 4
}

// Whether the second cell is one of the first one's neighbours: a plain cell, so that its lower bits are the frame and the resolution alone.
#[tactic(auto, using(crate::proofs::StepLaws::step_tested))]
pub fn is_step(a: Cell, b: Cell) -> bool
    ensures { result ≡ is_step a b }
{
    let here = cell::coord(a);
    lattice::is_valid_lattice_point(here)
        && b.low % 4294967296 == a.low % 65536
        && is_near(here, cell::coord(b))
}

const ROOT_THREE: u64 = 0x3FFB_B67A_E858_4CAA;

// What a step costs: its length, by whether it changes the parity.
#[tactic(auto, using(crate::proofs::Parities::parities), unfolding(crate::specs::Route::cost_between))]
pub fn step_cost(a: Cell, b: Cell) -> f64
    ensures { result ≡ cost_between a b }
{
    let first = a.low / 4294967296 % 2;
    let second = b.low / 4294967296 % 2;
    if first == second {
        2.0
    } else {
        float::value(ROOT_THREE)
    }
}

// Whether the rule keeps the drone from entering a cell.
#[tactic(auto, unfolding(crate::specs::Route::is_shut))]
pub fn is_shut(flags: &[u8], count: usize, rule: u32, c: Cell) -> bool
    requires { is_sound flag_width flags.now count ≡ true }
    ensures { result ≡ is_shut rule (rows_of flag_width flags.now count) c }
{
    // Kept: the rule is a number, as C hands it over, and `is_shut` of Route.antt reads it so.
    if rule != 1 {
        return false;
    }
    match table::held(flags, table::FLAG_WIDTH, count, c) {
        Some(kept) => table::flags::is_blocked(kept as u32),
        None => false,
    }
}

// What is wrong with a list of cells, with the verdict that tells it; refusals 13, 14 and 15 come before them.
#[derive(Clone, Copy, PartialEq, Eq)]
pub enum Fault {
    Empty = 20,
    WrongStart = 21,
    NotANeighbor = 22,
    Blocked = 23,
    WrongGoal = 24,
    WrongCost = 25,
}

impl Fault {
    fn number(self) -> u32
        ensures { result ≡ fault_number self }
    {
        self as u32
    }
}

// The verdict on an accepted list.
const ACCEPTED: u32 = 0;

// What is wrong at the end of a list without a wrong step.
fn arrive(last: Cell, paid: f64, goal: Cell, cost: u64) -> Result<(), Fault>
    ensures { judged result ≡ judge_walk goal cost (arrived last paid) }
{
    if !cell::same(last, goal) {
        return Err(Fault::WrongGoal);
    }
    if float::bits(paid) != cost {
        return Err(Fault::WrongCost);
    }
    Ok(())
}

// Judges a list that begins at its start, step by step; no cell is tested before it is entered.
#[tactic(auto, using(crate::proofs::Walks::walk_step, crate::proofs::Walks::walk_end))]
fn walk(
    route: &[u8],
    goal: Cell,
    cost: u64,
    flags: &[u8],
    count: usize,
    rule: u32,
) -> Result<(), Fault>
    requires cell_width_in_bounds { cell_width ≤ length route.now }
    requires count_value { is_sound flag_width flags.now count ≡ true }
    ensures { judged result ≡ judge_walk goal cost (walk_of route.now rule (rows_of flag_width flags.now count)) }
{
    let mut last = cell::read_at(route, 0);
    let mut paid = 0.0;
    for i in 1..route.len() / cell::CELL_WIDTH {
        let next = cell::read_at(route, cell::CELL_WIDTH * i);
        if !is_step(last, next) {
            return Err(Fault::NotANeighbor);
        }
        if is_shut(flags, count, rule, next) {
            return Err(Fault::Blocked);
        }
        paid += step_cost(last, next);
        last = next;
    }
    arrive(last, paid, goal, cost)
}

// Judges a list of cells in a sound layer.
#[tactic(auto, using(crate::proofs::Walks::judge_empty, crate::proofs::Walks::judge_start))]
fn judge(
    route: &[u8],
    start: Cell,
    goal: Cell,
    cost: u64,
    flags: &[u8],
    count: usize,
    rule: u32,
) -> Result<(), Fault>
    requires route_value { is_list route.now ≡ true }
    requires count_value { is_sound flag_width flags.now count ≡ true }
    ensures { judged result ≡ judge_cells rule (rows_of flag_width flags.now count) start goal cost (cells_of route.now) }
{
    if route.is_empty() {
        return Err(Fault::Empty);
    }
    if !cell::same(cell::read_at(route, 0), start) {
        return Err(Fault::WrongStart);
    }
    walk(route, goal, cost, flags, count, rule)
}

// Whether the route is a list of cells, and the start and the goal are one cell each.
fn are_lists(route: &[u8], start: &[u8], goal: &[u8]) -> bool
    ensures { result ≡ are_lists route.now start.now goal.now }
{
    route.len() % cell::CELL_WIDTH == 0
        && start.len() == cell::CELL_WIDTH
        && goal.len() == cell::CELL_WIDTH
}

// The verdict on a route with its two ends and its claimed cost, in a flag layer under a rule: 0 where it is accepted, else the number of the first failing.
#[tactic(auto, unfolding(crate::specs::Route::verdict_of))]
pub fn verdict(
    route: &[u8],
    start: &[u8],
    goal: &[u8],
    cost: u64,
    flags: &[u8],
    count: usize,
    rule: u32,
) -> u32
    ensures { result ≡ verdict_of (claim route.now start.now goal.now cost) (layer flags.now count) rule }
{
    if !are_lists(route, start, goal) {
        return refusal::number(Refusal::BadList);
    }
    if !table::is_sound(flags, table::FLAG_WIDTH, count) {
        return refusal::number(Refusal::BadLayer);
    }
    if rule >= 2 {
        return refusal::number(Refusal::BadRule);
    }
    let first = cell::read_at(start, 0);
    let last = cell::read_at(goal, 0);
    match judge(route, first, last, cost, flags, count, rule) {
        Ok(()) => ACCEPTED,
        Err(fault) => fault.number(),
    }
}

// Which of two routes is flown.
#[derive(Clone, Copy, PartialEq, Eq)]
pub enum Flown {
    Neither = 0,
    Sent = 1,
    Homing = 2,
}

impl Flown {
    fn number(self) -> u32
        ensures { result ≡ flown_number self }
    {
        self as u32
    }
}

// Which of two routes is flown, by their verdicts: the sent one, from `start` to `goal` at `cost`, before the homing one, from `departure` to `home`
// at `price`.
#[tactic(auto, unfolding(crate::specs::Route::choice_of))]
fn chosen(
    sent: &[u8],
    homing: &[u8],
    start: &[u8],
    goal: &[u8],
    cost: u64,
    departure: &[u8],
    home: &[u8],
    price: u64,
    flags: &[u8],
    count: usize,
    rule: u32,
) -> Flown
    ensures { let sending = claim sent.now start.now goal.now cost in
        let returning = claim homing.now departure.now home.now price in
        flown_number result ≡ choice_between sending returning (layer flags.now count) rule }
{
    if verdict(sent, start, goal, cost, flags, count, rule) == ACCEPTED {
        return Flown::Sent;
    }
    if verdict(homing, departure, home, price, flags, count, rule) == ACCEPTED {
        return Flown::Homing;
    }
    Flown::Neither
}

// The number of the choice between two routes: 0 neither, 1 the sent one, 2 the homing one.
pub fn choice(
    sent: &[u8],
    homing: &[u8],
    start: &[u8],
    goal: &[u8],
    cost: u64,
    departure: &[u8],
    home: &[u8],
    price: u64,
    flags: &[u8],
    count: usize,
    rule: u32,
) -> u32
    ensures { let sending = claim sent.now start.now goal.now cost in
        let returning = claim homing.now departure.now home.now price in
        result ≡ choice_between sending returning (layer flags.now count) rule }
{
    chosen(
        sent, homing, start, goal, cost, departure, home, price, flags, count, rule,
    )
    .number()
}

// Hands back the sent list itself, or the homing list itself, or the first no bytes of the sent one, as `choice` says.
pub fn choose<'a>(
    sent: &'a [u8],
    homing: &'a [u8],
    start: &[u8],
    goal: &[u8],
    cost: u64,
    departure: &[u8],
    home: &[u8],
    price: u64,
    flags: &[u8],
    count: usize,
    rule: u32,
) -> &'a [u8]
    ensures { let sending = claim sent.now start.now goal.now cost in
        let returning = claim homing.now departure.now home.now price in
        Chosen (choice_between sending returning (layer flags.now count) rule) sent.entry homing.entry result }
{
    match chosen(
        sent, homing, start, goal, cost, departure, home, price, flags, count, rule,
    ) {
        Flown::Sent => sent,
        Flown::Homing => homing,
        Flown::Neither => &sent[..0],
    }
}
