//! One state's cells, and their longest runs.
ghost use Rattle.std.specs.Prelude.{◌≡◌, ◌+◌, ◌*◌, ◌<◌, ◌≤◌, [], ◌∷◌, length};
ghost use Rattle.writing.specs.Bytes.{puts};
ghost use Rattle.writing.specs.Runs.{row_of, ends_run};
ghost use Rattle.writing.specs.Written.{records, place_of};

use crate::bytes::put_all;
use arrayvec::ArrayVec;
use machine::{Cell, Command, Machine};

/// The inputs `from` to `to`.
#[derive(Clone, Copy)]
struct Run {
    from: u16,
    to: u16,
}

// stays: a record as it is made, with 0 for no link as the format has it; the one that forms reads is five numbers and private to it
/// A run, its cell, and the number of the record behind it, or 0.
#[derive(Clone, Copy)]
struct Record {
    run: Run,
    cell: Cell<Command>,
    link: u16,
}

impl Record {
    /// Writes the record's five numbers from a place on.
    fn put(&self, out: &mut [u8], place: usize)
        requires { 2 * (place + 5) ≤ length out.old }
        ensures { out.new ≡ puts out.old place
            (self.now.run.from ∷ self.now.run.to ∷ self.now.cell.next ∷ self.now.cell.output.number ∷ self.now.link ∷ []) }
    {
        let Record { run, cell, link } = *self;
        put_all(
            out,
            place,
            &[run.from, run.to, cell.next, cell.output.number, link],
        );
    }
}

/// The place of a record's first number.
fn record_place(states: u16, number: u16) -> usize
    requires { 1 ≤ number }
    ensures { result ≡ place_of states number }
{
    4 + states as usize + 5 * (number as usize - 1)
}

/// The cell of a state at an input, or all zeros where there is none.
fn cell_or_none<M: Machine<Out = Command>>(machine: &M, state: u16, input: u16) -> Cell<Command>
    ensures { result ≡ row_of (M.Machine.means machine.now) state input }
{
    machine.entry(state, input).unwrap_or_default()
}

/// A state's cells, input by input.
#[derive(Drop, Default)]
pub(crate) struct Row {
    cells: ArrayVec<Cell<Command>, 32>,
}

impl Row {
    ghost use Rattle.writing.specs.Rows.{cells_in, runs_in};

    // in place, since a row that is handed out is copied whole, blanks and all
    /// Takes the cells of a state, in place of those before.
    pub(crate) fn read<M: Machine<Out = Command>>(&mut self, machine: &M, state: u16)
        ensures inputs { length self.new.cells.items ≡ (M.Machine.means machine.now).inputs }
        ensures cells { cells_in self.new ≡ row_of (M.Machine.means machine.now) state }
    {
        self.cells = ArrayVec::new();
        for input in 0..machine.inputs() {
            self.cells.push(cell_or_none(machine, state, input));
        }
    }

    /// Whether a longest run ends at an input.
    fn ends_run(&self, input: usize) -> bool
        requires { input < length self.now.cells.items }
        ensures { result ≡ ends_run (cells_in self.now) (length self.now.cells.items) input }
    {
        let last = self.cells.len() - 1;
        input == last || self.cells[input] != self.cells[input + 1]
    }

    // stays: here and in `put` the runs as they end; by a list of them, filled and copied each time, a chain of 128 x 1 took half as long again to write
    pub(crate) fn count_runs(&self) -> u16
        ensures { result ≡ length (runs_in self.now) }
    {
        let mut count = 0;
        for input in 0..self.cells.len() {
            if self.ends_run(input) {
                count += 1;
            }
        }
        count
    }

    /// Writes the records of the runs, the first of which is numbered `first`.
    pub(crate) fn put(&self, out: &mut [u8], states: u16, first: u16)
        requires some { 1 ≤ first }
        requires counted { first + length (runs_in self.now) ≤ 4097 }
        requires room { 2 * (place_of states first + 5 * length (runs_in self.now)) ≤ length out.old }
        ensures { out.new ≡ puts out.old (place_of states first) (records (cells_in self.now) first (runs_in self.now)) }
    {
        let inputs = self.cells.len();
        let mut number = first;
        let mut from = 0;
        for to in 0..inputs {
            if self.ends_run(to) {
                // only the last record of a state has no other behind it
                let link = if to + 1 == inputs { 0 } else { number + 1 };
                let record = Record {
                    run: Run {
                        from: from as u16,
                        to: to as u16,
                    },
                    cell: self.cells[from],
                    link,
                };
                record.put(out, record_place(states, number));
                number += 1;
                from = to + 1;
            }
        }
    }
}
