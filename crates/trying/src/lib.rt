// What the test programs go by: random runs and sources, what 01 and 02 say of them worked out for each cell by itself, how the
// library's refusals are compared with that, and the counts.
// Every function is proved safe and ending, for all numbers and all lent lengths. Nothing here is a public operation.
#![tactic(auto)]

pub mod draw;
pub mod layout;
pub mod numbers;
pub mod printing;
pub mod random;
pub mod reference;
pub mod refusals;
pub mod spelling;
pub mod tally;
