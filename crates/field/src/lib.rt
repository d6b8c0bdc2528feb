// Finite fields of at most 256 elements.
#![tactic(auto)]

pub mod elements;
pub mod fault;
pub mod field;
pub mod gf4;
mod inverses;
pub mod primes;
pub mod residues;
#[cfg(test)]
mod tests;
pub mod theorems;
