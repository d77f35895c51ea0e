//! Views of a reduced machine beyond the plain listing: a drawing, and a card for a panel in an unknown mode.
#![tactic(auto)]

pub use crate::cards::Card;
pub use crate::drawings::Drawing;

pub mod cards;
pub mod drawings;
mod members;
