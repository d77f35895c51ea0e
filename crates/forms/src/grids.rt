//! Reading a grid.
ghost use Rattle.forms.specs.Forms.{grid_of};
ghost use Rattle.std.proofs.Common.{rules, arith};

use crate::Grid;
use machine::{Cause, Cell, Machine, Output, StoredFault, test_range};

/// The next state of a blank cell.
// stays: the format's number for a blank cell, of which reading makes a cause
pub const BLANK: u16 = 65535;

impl<O: Output> Machine for Grid<O> {
    type Out = O;

    type Fault = StoredFault;

    ghost means = { grid_of };

    ghost sizes = { first_of (Prim.search rules, Prim.grind (arith, Self.row.coded.inj)) };

    ghost inside = { first_of (Prim.search rules, Prim.grind (arith, Self.row.coded.inj)) };

    ghost closed = { first_of (Prim.search rules, Prim.grind (arith, Self.row.coded.inj)) };

    fn states(&self) -> u16 {
        self.states
    }

    fn inputs(&self) -> u16 {
        self.inputs
    }

    fn start(&self) -> u16 {
        self.start
    }

    fn entry(&self, state: u16, input: u16) -> Result<Cell<O>, StoredFault> {
        test_range::<StoredFault>(self.states, self.inputs, state, input)?;
        let place = state as usize * self.inputs as usize + input as usize;
        let cell = Cell {
            next: self.next[place],
            output: self.outputs[place],
        };
        let cause = match cell.next {
            BLANK => Cause::Blank,
            next if next >= self.states => Cause::Next,
            _ => return Ok(cell),
        };
        Err(StoredFault {
            cause,
            state,
            input,
            place,
        })
    }
}
