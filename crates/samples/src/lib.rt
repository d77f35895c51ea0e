//! Small machines as tests write them down: a cell, a fault, a grid by its cells, and numbers as the bytes of a chain.
#![tactic(auto)]

ghost use Rattle.std.specs.Prelude.{◌≡◌, ℕ, map, IfOk, OnOk, vec_items, ◌++◌};
ghost use Rattle.std.specs.List.{flat_map};
ghost use Rattle.std.specs.Result.{result_map_both};
ghost use Rattle.forms.specs.Entries.{command};
ghost use Rattle.forms.specs.Forms.{grid_of};
ghost use Rattle.forms.specs.Grids.{grid_opening};
ghost use Rattle.samples.specs.Samples.{a_cell, a_fault, bytes_text};

use forms::{Grid, OpenRefusal};
use machine::{Cause, Cell, Command, StoredFault};
use std::alloc::{AllocError, Global};

/// A cell with a command.
pub fn cell(next: u16, number: u16) -> Cell<Command>
    ensures { result ≡ a_cell next number }
{
    Cell {
        next,
        output: Command { number },
    }
}

/// A fault of a stored form.
pub fn fault(cause: Cause, state: u16, input: u16, place: usize) -> StoredFault
    ensures { result ≡ a_fault cause state input place }
{
    StoredFault {
        cause,
        state,
        input,
        place,
    }
}

/// A grid, by the next state and the command of each cell.
pub fn grid(
    heap: Global,
    states: u16,
    inputs: u16,
    start: u16,
    cells: &[(u16, u16)],
) -> Result<Result<Grid<Command>, OpenRefusal>, AllocError>
    ensures { IfOk result (λ r. result_map_both grid_of (λ e. e) r ≡ grid_opening states inputs start (map (λ c. c.0) cells.now) (map (λ c. command c.1) cells.now)) }
{
    let next = nexts(heap, cells)?;
    let outputs = commands(heap, cells)?;
    Ok(Grid::open(states, inputs, start, next, outputs))
}

// stays: two functions of one line, since with both chains in `grid` its `returns` stayed open
fn nexts(heap: Global, cells: &[(u16, u16)]) -> Result<Vec<u16>, AllocError>
    ensures { IfOk result (λ v. v.items ≡ map (λ c. c.0) cells.now) }
{
    cells.iter().map(|(to, _)| *to).collect(heap)
}

fn commands(heap: Global, cells: &[(u16, u16)]) -> Result<Vec<Command>, AllocError>
    ensures { IfOk result (λ v. v.items ≡ map (λ c. command c.1) cells.now) }
{
    cells
        .iter()
        .map(|(_, number)| Command { number: *number })
        .collect(heap)
}

/// A chain's bytes: numbers, and then records, low bytes first.
pub fn bytes_of(heap: Global, front: &[u16], records: &[[u16; 5]]) -> Result<Vec<u8>, AllocError>
    ensures { IfOk result (λ v. v.items ≡ bytes_text front.now ++ flat_map bytes_text records.now) }
{
    let mut bytes = Vec::new(heap);
    push_numbers(&mut bytes, front)?;
    for record in records {
        push_numbers(&mut bytes, record)?;
    }
    Ok(bytes)
}

/// Adds numbers to bytes, low bytes first.
fn push_numbers(bytes: &mut Vec<u8>, numbers: &[u16]) -> Result<(), AllocError>
    ensures { OnOk result (bytes.new.items ≡ bytes.old.items ++ bytes_text numbers.now) }
{
    for number in numbers {
        bytes.extend_from_slice(&number.to_le_bytes())?;
    }
    Ok(())
}
