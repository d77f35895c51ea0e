//! Reading a chain.
ghost use Rattle.std.specs.Prelude.{◌≡◌, ◌<◌, Some, None, cond};
ghost use Rattle.forms.specs.Bytes.{states, count};
ghost use Rattle.forms.specs.Chains.{record_at, follows, covers, cell_from, walk, given, WalksRise};
ghost use Rattle.forms.specs.Forms.{chain_of};
ghost use Rattle.forms.specs.Walks.{chain_closed};
ghost use Rattle.std.proofs.Common.{rules, arith};

use crate::Chain;
use crate::bytes::number_at;
use machine::{Cause, Cell, Command, Machine, StoredFault, test_range};

/// A record serves the inputs `from` to `to`; `link` is the next record of its state, or 0.
#[derive(Clone, Copy)]
struct Record {
    from: u16,
    to: u16,
    next: u16,
    output: u16,
    link: u16,
}

impl Record {
    fn covers(&self, input: u16) -> bool
        ensures { result ≡ covers self.now input }
    {
        (self.from..=self.to).contains(&input)
    }
}

impl Machine for Chain {
    type Out = Command;

    type Fault = StoredFault;

    ghost means = { chain_of };

    ghost sizes = { first_of (Prim.search rules, Prim.grind (arith, Self.row.coded.inj)) };

    ghost inside = { first_of (Prim.search rules, Prim.grind (arith, Self.row.coded.inj)) };

    ghost closed = { λ m s i c h. chain_closed m.bytes.items s i c h };

    fn states(&self) -> u16 {
        number_at(&self.bytes, 0)
    }

    fn inputs(&self) -> u16 {
        number_at(&self.bytes, 1)
    }

    fn start(&self) -> u16 {
        number_at(&self.bytes, 2)
    }

    fn entry(&self, state: u16, input: u16) -> Result<Cell<Command>, StoredFault> {
        test_range::<StoredFault>(self.states(), self.inputs(), state, input)?;
        self.walked(state, input)
    }
}

impl Chain {
    /// The first record on the state's walk that serves the input gives the cell.
    fn walked(&self, state: u16, input: u16) -> Result<Cell<Command>, StoredFault>
        requires { state < states self.now.bytes.items }
        ensures { result ≡ given self.now.bytes.items state input 0 (walk self.now.bytes.items state) }
    {
        let mut last = 0;
        let mut link = number_at(&self.bytes, 4 + state as usize);
        while let Some(record) = self.follow(last, link) {
            if record.covers(input) {
                return self.cell_of(record).ok_or(StoredFault {
                    cause: Cause::Next,
                    state,
                    input,
                    place: link as usize,
                });
            }
            last = link;
            link = record.link;
        }
        // stays: a link of 0 is how the format ends a walk, and any other that leads nowhere is broken
        let cause = if link == 0 { Cause::Blank } else { Cause::Link };
        Err(StoredFault {
            cause,
            state,
            input,
            place: last as usize,
        })
    }

    /// The record that a link of the record `last` leads to. A link is followed only upward, so that a walk ends.
    fn follow(&self, last: u16, link: u16) -> Option<Record>
        ensures { result ≡ cond (follows last link (count self.now.bytes.items)) (Some (record_at self.now.bytes.items link)) None }
    {
        if link <= last || link > number_at(&self.bytes, 3) {
            return None;
        }
        let place = 4 + self.states() as usize + 5 * (link as usize - 1);
        Some(Record {
            from: number_at(&self.bytes, place),
            to: number_at(&self.bytes, place + 1),
            next: number_at(&self.bytes, place + 2),
            output: number_at(&self.bytes, place + 3),
            link: number_at(&self.bytes, place + 4),
        })
    }

    /// The cell of a record, if it leads to one of the states.
    fn cell_of(&self, record: Record) -> Option<Cell<Command>>
        ensures { result ≡ cell_from self.now.bytes.items «record» }
    {
        if record.next >= self.states() {
            return None;
        }
        Some(Cell {
            next: record.next,
            output: Command {
                number: record.output,
            },
        })
    }
}

/// Each record that a walk reads is above the one before, so that no walk comes back to a record.
pub fn walks_rise()
    ensures { WalksRise }
{}
