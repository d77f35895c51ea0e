//! The machines that are settled: one table of cells, as a grid, as a chain, and in layers.
ghost use Rattle.std.specs.Prelude.{◌≡◌, ◌≤◌, ◌++◌, IfOk, Ok, OnOk};
ghost use Rattle.forms.specs.Chains.{chain_opening};
ghost use Rattle.forms.specs.Forms.{ring_of, grid_of, chain_of};
ghost use Rattle.forms.specs.Rings.{ring_meaning};
ghost use Rattle.writing.specs.Writes.{SameMachine};
ghost use Rattle.bench.specs.Tables.{last_command, next_row, command_row, measured};
ghost use Rattle.bench.specs.Piles.{beside_of, train_of, keymap_of, deep_of, backward_keys, turns, singled, fed, turned, three_deep};

use anyhow::anyhow;
use forms::{Chain, Grid, Ring};
use layers::{Beside, Keymap, Train};
use machine::Command;
use std::alloc::{AllocError, Global};
use std::fmt;
use writing::write_chain;

/// What the last input puts out, on which it depends how the machine settles.
#[derive(Clone, Copy)]
pub(crate) enum Case {
    /// one command: no round splits
    Alike,
    /// a command for each state: the first round splits all
    Apart,
    /// another command at state 0 only: each round splits one state off
    Stairs,
}

impl fmt::Display for Case {
    fn fmt<W: fmt::Write>(&self, f: &mut fmt::Formatter<W>) -> fmt::Result {
        f.pad(match self {
            Case::Alike => "alike",
            Case::Apart => "apart",
            Case::Stairs => "stairs",
        })
    }
}

impl Case {
    /// The command at the last input.
    fn last_command(self, state: u16) -> u16
        ensures { result ≡ last_command self state }
    {
        match self {
            Case::Alike => 0,
            Case::Apart => state,
            Case::Stairs if state == 0 => 1,
            Case::Stairs => 0,
        }
    }
}

fn ring(states: u16) -> anyhow::Result<Ring>
    ensures { IfOk result (λ m. ring_of m ≡ ring_meaning states) }
{
    Ring::open(states).map_err(|_| anyhow!("no ring"))
}

fn open_chain(bytes: Vec<u8>) -> anyhow::Result<Chain>
    ensures { IfOk result (λ c. chain_opening bytes.items ≡ Ok (chain_of c)) }
{
    Chain::open(bytes).map_err(|_| anyhow!("no chain"))
}

/// The inputs from the last to the first.
fn backwards(heap: Global, inputs: u16) -> Result<Vec<u16>, AllocError>
    ensures { IfOk result (λ v. v.items ≡ backward_keys inputs) }
{
    (0..inputs).map(|input| inputs - 1 - input).collect(heap)
}

/// The states of the ring below, of so many in all: 2, or 1 where there are too few.
fn ring_size(states: u16) -> u16
    ensures size { result ≡ turns states }
    ensures some { 1 ≤ result }
{
    if states < 4 { 1 } else { 2 }
}

/// What is measured: the case, and how many states and inputs the machine has.
#[derive(Clone, Copy)]
pub(crate) struct Measured {
    pub(crate) case: Case,
    pub(crate) states: u16,
    pub(crate) inputs: u16,
}

impl Measured {
    /// Adds the cells of a state: at the last input it goes one state down, at any other it stays and puts out the input's number.
    fn push_row(
        self,
        next: &mut Vec<u16>,
        outputs: &mut Vec<Command>,
        state: u16,
    ) -> Result<(), AllocError>
        ensures nexts { OnOk result (next.new.items ≡ next.old.items ++ next_row self.inputs state) }
        ensures commands { OnOk result (outputs.new.items ≡ outputs.old.items ++ command_row self.case self.inputs state) }
    {
        let last = self.inputs.saturating_sub(1);
        for input in 0..last {
            next.push(state)?;
            outputs.push(Command { number: input })?;
        }
        next.push(state.saturating_sub(1))?;
        outputs.push(Command {
            number: self.case.last_command(state),
        })?;
        Ok(())
    }

    pub(crate) fn grid(self, heap: Global) -> anyhow::Result<Grid<Command>>
        ensures { IfOk result (λ g. grid_of g ≡ measured self.case self.states self.inputs) }
    {
        let mut next = Vec::new(heap);
        let mut outputs = Vec::new(heap);
        for state in 0..self.states {
            self.push_row(&mut next, &mut outputs, state)?;
        }
        Grid::open(self.states, self.inputs, 0, next, outputs).map_err(|_| anyhow!("no grid"))
    }

    /// The same as a chain, with a record for each cell but for neighbours that are equal.
    pub(crate) fn chain(self, heap: Global) -> anyhow::Result<Chain>
        ensures { IfOk result (λ c. SameMachine (measured self.case self.states self.inputs) (chain_of c)) }
    {
        let grid = self.grid(heap)?;
        let cells = self.states as usize * self.inputs as usize;
        let mut bytes = vec![in heap; 0u8; 2 * (4 + self.states as usize + 5 * cells)]?;
        let needed = write_chain(&grid, &mut bytes).map_err(|_| anyhow!("no chain to write"))?;
        bytes.truncate(needed);
        open_chain(bytes)
    }

    /// A grid beside a single state, which the states of stairs leave one by one.
    pub(crate) fn beside(self, heap: Global) -> anyhow::Result<Beside<Grid<Command>, Grid<Command>>>
        ensures { IfOk result (λ m. beside_of m ≡ singled self.case self.states self.inputs) }
    {
        let first = Measured {
            states: self.states.saturating_sub(1),
            ..self
        };
        let second = Measured {
            case: Case::Alike,
            states: 1,
            ..self
        };
        Ok(Beside::new(first.grid(heap)?, second.grid(heap)?))
    }

    /// A grid that feeds a ring of 2.
    pub(crate) fn train(self, heap: Global) -> anyhow::Result<Train<Grid<Command>, Ring>>
        ensures { IfOk result (λ m. train_of m ≡ fed self.case self.states self.inputs) }
    {
        let lower = Measured {
            states: self.states / 2,
            ..self
        };
        Ok(Train::new(lower.grid(heap)?, ring(2)?))
    }

    /// A grid with its inputs backwards.
    pub(crate) fn keymap(self, heap: Global) -> anyhow::Result<Keymap<Grid<Command>>>
        ensures { IfOk result (λ m. keymap_of m ≡ turned self.case self.states self.inputs) }
    {
        let keys = backwards(heap, self.inputs)?;
        Ok(Keymap::new(self.grid(heap)?, &keys))
    }

    /// Three deep: two grids beside each other feed a ring, with the inputs backwards.
    pub(crate) fn deep(
        self,
        heap: Global,
    ) -> anyhow::Result<Keymap<Train<Beside<Grid<Command>, Grid<Command>>, Ring>>>
        ensures { IfOk result (λ m. deep_of m ≡ three_deep self.case self.states self.inputs) }
    {
        let size = ring_size(self.states);
        let keys = backwards(heap, self.inputs)?;
        let lower = Measured {
            states: self.states / size,
            ..self
        };
        Ok(Keymap::new(Train::new(lower.beside(heap)?, ring(size)?), &keys))
    }
}
