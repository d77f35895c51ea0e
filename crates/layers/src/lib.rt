//! Machines made of machines: two beside each other, one that feeds another, and one under a key map.
#![tactic(auto)]

pub use crate::faults::{KeymapFault, LayerFault, PairFault};
use arrayvec::ArrayVec;

/// The most keys of a key map: the panel has no more inputs.
pub const MOST_KEYS: usize = 32;

/// The states of the second part stand after those of the first.
#[derive(Drop)]
pub struct Beside<P, Q> {
    first: P,
    second: Q,
}

/// The lower part is asked first, and its command is an input of the upper part.
#[derive(Drop)]
pub struct Train<L, U> {
    lower: L,
    upper: U,
}

/// Each key asks the part for the input that is listed for it.
#[derive(Drop)]
pub struct Keymap<P> {
    part: P,
    /// no key where the list was too long, since both make a misfit
    keys: ArrayVec<u16, MOST_KEYS>,
}

pub mod besides;
mod counts;
pub mod faults;
pub mod keymaps;
mod misfits;
pub mod trains;
