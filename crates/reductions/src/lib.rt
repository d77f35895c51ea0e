//! A machine reduced: everything that its settled sheet hands out, in lists.
#![tactic(auto)]

ghost use Rattle.std.specs.Prelude.{◌≡◌};
ghost use Rattle.reductions.specs.Reductions.{Reduced};
ghost use Rattle.reductions.specs.declared.Unreduced.TheVariants.{Unsound, NoMemory};

use crate::handing::Done;
use machine::{CheckRefusal, Machine, Output, check};
use sheet::{Settling, Table};
use std::alloc::{AllocError, Global};

/// Two classes, and the first of the shortest words that tell their lowest states apart.
#[derive(Drop)]
pub struct Apart {
    pub first: u16,
    pub second: u16,
    pub word: Vec<u16>,
}

/// The counts and the start of a machine, the smallest machine equivalent to it, the class of each state, and what tells each
/// two classes apart.
#[derive(Drop)]
pub struct Reduction<O> {
    pub states: u16,
    pub inputs: u16,
    pub start: u16,
    pub settling: Settling,
    pub table: Table,
    pub map: Vec<u16>,
    // stays: next states and outputs in two lists, since a sheet's `table` writes them into two buffers, and `open_table` takes them so
    pub next: Vec<u16>,
    pub outputs: Vec<O>,
    pub aparts: Vec<Apart>,
}

/// Why there is no reduction.
#[derive(Drop)]
pub enum Unreduced<F> {
    Unsound(CheckRefusal<F>),
    NoMemory,
}

impl<F> From<CheckRefusal<F>> for Unreduced<F> {
    ghost from_gives = { λ x y. y ≡ Unsound x };

    fn from(refusal: CheckRefusal<F>) -> Unreduced<F> {
        Unreduced::Unsound(refusal)
    }
}

impl<F> From<AllocError> for Unreduced<F> {
    ghost from_gives = { λ x y. y ≡ NoMemory };

    fn from(_: AllocError) -> Unreduced<F> {
        Unreduced::NoMemory
    }
}

/// Reduces a sound machine; any other is refused as the check refuses it.
pub fn reduce<M: Machine + Drop>(
    heap: Global,
    machine: M,
) -> Result<Reduction<M::Out>, Unreduced<M::Fault>>
    ensures { Reduced M.Out.Output.key (M.Machine.means machine) result }
{
    check(&machine)?;
    Ok(Done::of(machine).hand_out(heap)?)
}

mod handing;
