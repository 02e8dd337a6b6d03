#![tactic(auto)]

// Nothing of lattices, cells or layers: what definitions and proofs of any crate may cite. It has no code.
