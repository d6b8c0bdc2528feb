// Models of cells over lent memory: entering, taking off, trials and questions.
#![tactic(auto)]

pub mod fault;
pub mod memory;
pub mod model;
