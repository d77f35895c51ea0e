//! Why an entry is no cell.
ghost use Rattle.std.specs.Prelude.{◌≡◌, ℕ, Some};
ghost use Rattle.machine.specs.declared.faults.Cause.{Cause};
ghost use Rattle.machine.specs.Causes.{cause_number, cause_text, fault_text, range_cause, range_test, stored_own};

use std::fmt;

/// The six causes, numbered as people know them.
#[derive(Clone, Copy, PartialEq, Eq, Debug)]
pub enum Cause {
    /// the state is not below the count of states
    State = 1,
    /// the input is not below the count of inputs
    Input = 2,
    /// nothing is stored for the cell
    Blank = 3,
    /// a next state is stored that is no state
    Next = 4,
    /// a link leads nowhere
    Link = 5,
    /// the machine is a misfit: its parts do not go together
    Misfit = 6,
}

impl Cause {
    pub fn number(self) -> u8
        ensures { result ≡ cause_number self }
    {
        self as u8
    }

    /// Cause 1 or 2, where a state or an input is not below its count; the state comes first.
    pub fn of_range(states: u16, inputs: u16, state: u16, input: u16) -> Option<Cause>
        ensures { result ≡ range_cause states inputs state input }
    {
        if state >= states {
            Some(Cause::State)
        } else if input >= inputs {
            Some(Cause::Input)
        } else {
            None
        }
    }

    pub fn words(self) -> &'static str
        ensures { result.now ≡ cause_text self }
    {
        match self {
            Cause::State => "no such state",
            Cause::Input => "no such input",
            Cause::Blank => "blank cell",
            Cause::Next => "next state out of range",
            Cause::Link => "broken link",
            Cause::Misfit => "misfit",
        }
    }
}

impl fmt::Display for Cause {
    ghost output = { λ c. Some (cause_text c) };

    fn fmt<W: fmt::Write>(&self, f: &mut fmt::Formatter<W>) -> fmt::Result {
        let words = self.words();
        write!(f, "{words}")
    }
}

/// What a fault of any machine can be asked: the cause at its bottom, however many layers carry it.
pub trait Fault: Drop {
    ghost root: { Self → Cause };

    fn cause(&self) -> Cause
        ensures { result ≡ root self.now };
}

/// A fault that a machine finds itself, and no part of it: a cause at a state and an input is all that it needs.
pub trait OwnFault: Fault {
    ghost own: { Cause → ℕ → ℕ → Self };

    fn own(cause: Cause, state: u16, input: u16) -> Self
        ensures { result ≡ own cause state input };
}

/// Lets a state and an input pass that are below their counts, or tells cause 1 or 2.
pub fn test_range<F: OwnFault>(states: u16, inputs: u16, state: u16, input: u16) -> Result<(), F>
    ensures { result ≡ range_test F.own states inputs state input }
{
    match Cause::of_range(states, inputs, state, input) {
        Some(cause) => Err(F::own(cause, state, input)),
        None => Ok(()),
    }
}

/// A fault of a stored form. The place says where in the form's own store; each form says what it counts.
#[derive(Clone, Copy, PartialEq, Eq, Debug)]
pub struct StoredFault {
    pub cause: Cause,
    pub state: u16,
    pub input: u16,
    pub place: usize,
}

impl Fault for StoredFault {
    ghost root = { λ f. f.cause };

    fn cause(&self) -> Cause {
        self.cause
    }
}

impl OwnFault for StoredFault {
    ghost own = { stored_own };

    // a fault that is found before the store is asked has place 0
    fn own(cause: Cause, state: u16, input: u16) -> StoredFault {
        StoredFault {
            cause,
            state,
            input,
            place: 0,
        }
    }
}

impl fmt::Display for StoredFault {
    ghost output = { λ f. Some (fault_text f) };

    fn fmt<W: fmt::Write>(&self, f: &mut fmt::Formatter<W>) -> fmt::Result {
        let StoredFault {
            cause,
            state,
            input,
            place,
        } = *self;
        write!(f, "state {state} input {input}: {cause} at place {place}")
    }
}
