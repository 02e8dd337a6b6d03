// The C face: every public call, on numbers and byte slices. The crate tishkolan_c exports them, and include/tishkolan.h declares what stands here.
#![tactic(auto)]

pub mod aggregates;
pub mod cells;
pub mod flags;
pub mod labels;
pub mod layers;
pub mod paths;
pub mod points;
pub mod rings;
pub mod routes;
pub mod searches;
pub mod surveys;
pub mod version;
