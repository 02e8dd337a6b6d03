// The limited A* search: its definition, what is true of it, and what it answers. The search itself is built on the known cells of `known`.
#![tactic(auto)]

// A route at the front of the output: how many cells it has, the bits of its cost, and the cells that were closed to find it.
#[derive(Clone, Copy)]
pub struct Route {
    pub cells: usize,
    pub cost: u64,
    pub expansions: u64,
}
