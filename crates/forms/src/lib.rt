//! The stored forms of a machine: a ring, a grid and a chain.
#![tactic(auto)]

ghost use Rattle.std.specs.Prelude.{◌≡◌, ◌+◌, ◌*◌, ◌<◌, ◌≤◌, vec_len};
ghost use Rattle.forms.specs.Bytes.{states, inputs, start, count};

pub use crate::openings::OpenRefusal;

/// States around a circle, with no table: one key goes forward, one back, one stays.
#[derive(Clone, Copy)]
pub struct Ring {
    size: u16,
    ghost some: { 1 ≤ size },
    ghost few: { size ≤ 128 },
}

/// A full table: for each state and input a next state and an output.
#[derive(Drop)]
pub struct Grid<O> {
    states: u16,
    inputs: u16,
    start: u16,
    // stays: the caller hands in two lists; to join them would take memory, and opening cannot fail for want of it
    next: Vec<u16>,
    outputs: Vec<O>,
    ghost some_states: { 1 ≤ states },
    ghost few_states: { states ≤ 128 },
    ghost some_inputs: { 1 ≤ inputs },
    ghost few_inputs: { inputs ≤ 32 },
    ghost starts: { start < states },
    ghost next_length: { vec_len next ≡ states * inputs },
    ghost output_length: { vec_len outputs ≡ states * inputs },
}

/// Bytes in which each state has a chain of records, and each record serves a range of inputs.
#[derive(Drop)]
pub struct Chain {
    bytes: Vec<u8>,
    ghost some_states: { 1 ≤ states bytes.items },
    ghost few_states: { states bytes.items ≤ 128 },
    ghost some_inputs: { 1 ≤ inputs bytes.items },
    ghost few_inputs: { inputs bytes.items ≤ 32 },
    ghost starts: { start bytes.items < states bytes.items },
    ghost few_records: { count bytes.items ≤ 4096 },
    ghost whole: { vec_len bytes ≡ 2 * (4 + states bytes.items + 5 * count bytes.items) },
}

mod bytes;
pub mod chains;
pub mod grids;
pub mod openings;
pub mod rings;
