//! Whether a machine has every cell that it should.
ghost use Rattle.std.specs.Prelude.{◌≡◌, true, is_ok, Decides};
ghost use Rattle.machine.specs.Meaning.{Sound};
ghost use Rattle.machine.specs.Checks.{Checked, check_number, check_refusal_text};

use crate::{Fault, Machine};
use std::fmt;

#[derive(Clone, Copy, PartialEq, Eq, Debug, Drop)]
pub enum CheckRefusal<F> {
    /// with the fault of the entry at state 0 and input 0
    Misfit(F),
    /// the first cell, states rising and inputs rising, that is not filled
    Hole { state: u16, input: u16, fault: F },
}

impl<F> CheckRefusal<F> {
    pub fn number(&self) -> u8
        ensures { result ≡ check_number self.now }
    {
        match self {
            CheckRefusal::Misfit(_) => 1,
            CheckRefusal::Hole { .. } => 2,
        }
    }
}

/// The number, the place of a hole, the cause at the bottom of the fault, and the fault in its own words.
impl<F: Fault + fmt::Display> fmt::Display for CheckRefusal<F> {
    ghost output = { check_refusal_text F.Fault.root F.Display.output };

    fn fmt<W: fmt::Write>(&self, f: &mut fmt::Formatter<W>) -> fmt::Result {
        let number = self.number();
        match self {
            CheckRefusal::Misfit(fault) => {
                let cause = fault.cause().number();
                write!(f, "refused {number} cause {cause}, {fault}")
            }
            CheckRefusal::Hole {
                state,
                input,
                fault,
            } => {
                let cause = fault.cause().number();
                write!(
                    f,
                    "refused {number} state {state} input {input} cause {cause}, {fault}"
                )
            }
        }
    }
}

/// Accepts exactly the sound machines: those that are no misfit and have every cell.
pub fn check<M: Machine>(machine: &M) -> Result<(), CheckRefusal<M::Fault>>
    ensures accepts { Decides (is_ok result) (Sound (M.Machine.means machine.now)) }
    ensures answer { Checked (M.Machine.means machine.now) result }
{
    let states = machine.states();
    let inputs = machine.inputs();
    if states == 0 {
        let Err(fault) = machine.entry(0, 0) else {
            unreachable()
        };
        return Err(CheckRefusal::Misfit(fault));
    }
    for state in 0..states {
        for input in 0..inputs {
            machine
                .entry(state, input)
                .map_err(|fault| CheckRefusal::Hole {
                    state,
                    input,
                    fault,
                })?;
        }
    }
    Ok(())
}
