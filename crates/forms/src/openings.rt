//! Opening the stored forms: each is made here or refused.
ghost use Rattle.std.specs.Prelude.{◌≡◌, Some};
ghost use Rattle.std.specs.Result.{result_map_both};
ghost use Rattle.forms.specs.Openings.{open_number, open_text, size_test};
ghost use Rattle.forms.specs.Chains.{chain_opening};
ghost use Rattle.forms.specs.Forms.{ring_of, grid_of, chain_of};
ghost use Rattle.forms.specs.Grids.{grid_opening};
ghost use Rattle.forms.specs.Rings.{ring_opening};

use crate::bytes::number_at;
use crate::rings::STAY;
use crate::{Chain, Grid, Ring};
use machine::{MOST_INPUTS, MOST_STATES, Output};
use std::fmt;

/// The most records of a chain.
pub const MOST_RECORDS: u16 = 4096;

#[derive(Clone, Copy, PartialEq, Eq, Debug)]
pub enum OpenRefusal {
    /// states or inputs outside the panel's limits
    Size = 10,
    /// the start is no state
    Start = 11,
    /// the list of next states, or that of outputs, has not one place for each cell
    NextLength = 12,
    OutputLength = 13,
    /// too few bytes for the numbers in front
    Front = 20,
    /// too many records
    Records = 21,
    /// not the length that the numbers in front ask for
    Length = 22,
}

impl OpenRefusal {
    pub fn number(self) -> u8
        ensures { result ≡ open_number self }
    {
        self as u8
    }
}

impl fmt::Display for OpenRefusal {
    ghost output = { λ e. Some (open_text e) };

    fn fmt<W: fmt::Write>(&self, f: &mut fmt::Formatter<W>) -> fmt::Result {
        let number = self.number();
        write!(f, "refused {number}")
    }
}

/// The sizes and the start, tested alike for every form.
fn test_sizes(states: u16, inputs: u16, start: u16) -> Result<(), OpenRefusal>
    ensures { result ≡ size_test states inputs start }
{
    if !(1..=MOST_STATES).contains(&states) || !(1..=MOST_INPUTS).contains(&inputs) {
        return Err(OpenRefusal::Size);
    }
    if start >= states {
        return Err(OpenRefusal::Start);
    }
    Ok(())
}

impl Ring {
    pub fn open(size: u16) -> Result<Ring, OpenRefusal>
        ensures { result_map_both ring_of (λ e. e) result ≡ ring_opening size }
    {
        test_sizes(size, STAY + 1, 0)?;
        Ok(Ring { size })
    }
}

impl<O: Output> Grid<O> {
    pub fn open(
        states: u16,
        inputs: u16,
        start: u16,
        next: Vec<u16>,
        outputs: Vec<O>,
    ) -> Result<Grid<O>, OpenRefusal>
        ensures { result_map_both grid_of (λ e. e) result ≡ grid_opening states inputs start next.items outputs.items }
    {
        test_sizes(states, inputs, start)?;
        let cells = states as usize * inputs as usize;
        if next.len() != cells {
            return Err(OpenRefusal::NextLength);
        }
        if outputs.len() != cells {
            return Err(OpenRefusal::OutputLength);
        }
        Ok(Grid {
            states,
            inputs,
            start,
            next,
            outputs,
        })
    }
}

impl Chain {
    pub fn open(bytes: Vec<u8>) -> Result<Chain, OpenRefusal>
        ensures { result_map_both chain_of (λ e. e) result ≡ chain_opening bytes.items }
    {
        if bytes.len() < 8 {
            return Err(OpenRefusal::Front);
        }
        let states = number_at(&bytes, 0);
        test_sizes(states, number_at(&bytes, 1), number_at(&bytes, 2))?;
        let records = number_at(&bytes, 3);
        if records > MOST_RECORDS {
            return Err(OpenRefusal::Records);
        }
        if bytes.len() != 2 * (4 + states as usize + 5 * records as usize) {
            return Err(OpenRefusal::Length);
        }
        Ok(Chain { bytes })
    }
}
