//! A sheet: a machine, and the partitions of its states that its rounds have taken, down to equivalence.
#![tactic(auto)]

ghost use Rattle.std.specs.Prelude.{◌<◌, ◌≤◌};
ghost use Rattle.sheet.specs.Stage.{stage_at};
ghost use Rattle.sheet.specs.Kept.{KeptAt, KeptAt-prop};

pub use crate::answers::{Pair, Refusal, Round, Settling, Table, TableBuffer};
use machine::{Machine, Output};

/// A machine, and what is known of its states so far.
/// Row j holds the block number of each state in the partition P j; `parts` counts the blocks of the last one taken.
/// All of it is a function of the machine's meaning, of `rounds` and of `settled`.
// stays: an array beside `rounds`: with an `ArrayVec<[u8; 128], 128>` all of `kept` and each read `rows[j]` would need a fact about its length
#[derive(Drop)]
pub struct Sheet<M: Machine> {
    machine: M,
    // stays: two facts, not an Option or a Result: the machine, its rounds, parts and rows are there whether or not they hold
    sound: bool,
    settled: bool,
    rounds: usize,
    parts: u8,
    rows: [[u8; 128]; 128],
    ghost early: { rounds < parts },
    ghost few: { parts ≤ 128 },
    ghost kept: { KeptAt (stage_at M.Out.key (M.Machine.means machine) rounds settled) sound parts rows } by { KeptAt-prop (stage_at M.Out.key (M.Machine.means machine) rounds settled) sound parts rows },
}

pub mod answers;
pub mod calls;
mod steps;
