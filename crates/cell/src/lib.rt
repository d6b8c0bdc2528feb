// Kinds of cells.
#![tactic(auto)]

pub mod cube;
pub mod kind;
pub mod pair;
mod sign;
pub mod simplex;
#[cfg(test)]
mod tests;
pub mod theorems;
