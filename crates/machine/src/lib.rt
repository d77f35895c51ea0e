//! A machine: what it answers, what that means, and what every machine owes.
#![tactic(auto)]

ghost use Rattle.std.specs.Prelude.{◌≡◌};
ghost use Rattle.machine.specs.Meaning.{Meaning, Sizes, Inside, Closed};

pub use crate::checks::{CheckRefusal, check};
pub use crate::faults::{Cause, Fault, OwnFault, StoredFault, test_range};
pub use crate::outputs::{Command, Output, WheelMove};

/// What the panel can hold.
pub const MOST_STATES: u16 = 128;

pub const MOST_INPUTS: u16 = 32;

/// One entry of a state table: where the panel goes, and what it puts out.
#[derive(Clone, Copy, PartialEq, Eq, Debug, Default)]
pub struct Cell<O> {
    pub next: u16,
    pub output: O,
}

/// A state table that can be asked. The same question always has the same answer, and asking changes nothing.
pub trait Machine {
    type Out: Output;

    type Fault: Fault;

    // what the four questions are answered by
    ghost means: { Self → Meaning Self.Out Self.Fault };

    // stays: 0 states for a misfit: the rules tell a misfit by three zeros, here, of the inputs and of the start
    fn states(&self) -> u16
        ensures { result ≡ (means self.now).states };

    fn inputs(&self) -> u16
        ensures { result ≡ (means self.now).inputs };

    fn start(&self) -> u16
        ensures { result ≡ (means self.now).start };

    // stays: state and input as two numbers, here and below, as a table is asked; a struct of the two each form would take apart first
    /// The cell of a state at an input, or why there is none.
    fn entry(&self, state: u16, input: u16) -> Result<Cell<Self::Out>, Self::Fault>
        ensures { result ≡ (means self.now).entry state input };

    // within the panel's limits, or a misfit
    ghost sizes: { (m : Self) → Sizes (means m) };

    // cells only below the counts
    ghost inside: { (m : Self) → Inside (means m) };

    // which lead to states
    ghost closed: { (m : Self) → Closed (means m) };
}

pub mod checks;
pub mod faults;
pub mod outputs;
