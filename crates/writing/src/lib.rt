//! Writing a machine as a chain, with one record for each longest run of inputs with equal cells.
#![tactic(auto)]

pub use crate::normal::{NormalRefusal, normalised};
pub use crate::writes::{WriteRefusal, write_chain};

mod bytes;
pub mod normal;
mod plans;
mod rows;
pub mod writes;
