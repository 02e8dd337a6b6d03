#![tactic(auto)]

// What is true of a layer after any calls on it, a load and a rollup among them: definitions and theorems, and no code.
