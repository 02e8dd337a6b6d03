// The limited A* search over lent bytes: from its start, through the pops of `expansion`, to a route in a buffer.
#![tactic(auto)]

pub mod call;
mod way;
