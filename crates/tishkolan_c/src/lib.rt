// The calls for C: an export for each function that include/tishkolan.h declares. Each calls that of the crate tishkolan and states its clauses again.
#![tactic(auto)]

pub mod aggregates;
pub mod cells;
pub mod flags;
pub mod labels;
pub mod layers;
pub mod paths;
pub mod points;
pub mod rings;
pub mod routes;
pub mod searches;
pub mod surveys;
pub mod version;
