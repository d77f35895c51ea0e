//! The ring.
ghost use Rattle.forms.specs.Forms.{ring_of};
ghost use Rattle.std.proofs.Common.{rules, arith};

use crate::Ring;
use machine::{Cell, Command, Machine, StoredFault, test_range};

/// The keys of a ring.
// stays: the inputs of every machine are numbers, and these are the ring's
pub const FORWARD: u16 = 0;

pub const BACK: u16 = 1;

pub const STAY: u16 = 2;

impl Machine for Ring {
    type Out = Command;

    type Fault = StoredFault;

    ghost means = { ring_of };

    ghost sizes = { first_of (Prim.search rules, Prim.grind (arith, Self.row.coded.inj)) };

    ghost inside = { first_of (Prim.search rules, Prim.grind (arith, Self.row.coded.inj)) };

    ghost closed = { first_of (Prim.search rules, Prim.grind (arith, Self.row.coded.inj)) };

    fn states(&self) -> u16 {
        self.size
    }

    fn inputs(&self) -> u16 {
        STAY + 1
    }

    fn start(&self) -> u16 {
        0
    }

    fn entry(&self, state: u16, input: u16) -> Result<Cell<Command>, StoredFault> {
        test_range::<StoredFault>(self.size, self.inputs(), state, input)?;
        let last = self.size - 1;
        let (next, number) = match input {
            FORWARD if state == last => (0, 1),
            FORWARD => (state + 1, 0),
            BACK if state == 0 => (last, 2),
            BACK => (state - 1, 0),
            _ => (state, 0),
        };
        Ok(Cell {
            next,
            output: Command { number },
        })
    }
}
