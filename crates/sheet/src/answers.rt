//! What a sheet answers, and why it refuses.
ghost use Rattle.std.specs.Prelude.{◌≡◌, Some};
ghost use Rattle.sheet.specs.Refusals.{refusal_number, refusal_value};
ghost use Rattle.sheet.specs.Texts.{pair_text, refusal_text, round_text, settling_text, table_text};

use std::fmt;

/// A round took a finer partition, or found that there is none; with the count of blocks then.
#[derive(Clone, Copy, PartialEq, Eq, Debug)]
pub enum Round {
    Split { count: u16 },
    Settled { count: u16 },
}

#[derive(Clone, Copy, PartialEq, Eq, Debug)]
pub enum Pair {
    /// a word of this many inputs tells the states apart, and no shorter one
    Apart(u16),
    /// no word of as many inputs as rounds have split tells them apart
    Together,
    /// no word does: the sheet is settled
    Equivalent,
}

/// The count of classes in the table, and the class of the start.
#[derive(Clone, Copy, PartialEq, Eq, Debug)]
pub struct Table {
    pub classes: u16,
    pub start: u16,
}

/// The rounds that settling took, the last of which changed nothing, and the count of blocks.
#[derive(Clone, Copy, PartialEq, Eq, Debug)]
pub struct Settling {
    pub rounds: u16,
    pub count: u16,
}

/// The two buffers of a table.
#[derive(Clone, Copy, PartialEq, Eq, Debug)]
pub enum TableBuffer {
    Next = 1,
    Outputs = 2,
}

#[derive(Clone, Copy, PartialEq, Eq, Debug)]
pub enum Refusal {
    /// the machine is not sound
    Unsound,
    /// a round on a settled sheet
    AlreadySettled,
    /// a state that is not below the count of states
    NoSuchState,
    /// no word found so far tells the two states apart
    NotApart,
    /// a table of a sheet that is not settled
    Unsettled,
    /// the buffer is shorter than this
    Short { needed: usize },
    /// this buffer of a table is too short
    ShortTable(TableBuffer),
}

impl Refusal {
    /// The number under which the refusal is known.
    pub fn number(self) -> u8
        ensures { result ≡ refusal_number self }
    {
        match self {
            Refusal::Unsound => 3,
            Refusal::AlreadySettled => 4,
            Refusal::NoSuchState => 5,
            Refusal::NotApart => 6,
            Refusal::Unsettled => 7,
            Refusal::Short { .. } | Refusal::ShortTable(_) => 8,
        }
    }

    /// The value that comes with the number: the length needed, or 1 or 2 for the buffer of a table.
    pub fn value(self) -> Option<usize>
        ensures { result ≡ refusal_value self }
    {
        match self {
            Refusal::Short { needed } => Some(needed),
            Refusal::ShortTable(buffer) => Some(buffer as usize),
            Refusal::Unsound
            | Refusal::AlreadySettled
            | Refusal::NoSuchState
            | Refusal::NotApart
            | Refusal::Unsettled => None,
        }
    }
}

impl fmt::Display for Round {
    ghost output = { λ r. Some (round_text r) };

    fn fmt<W: fmt::Write>(&self, f: &mut fmt::Formatter<W>) -> fmt::Result {
        match self {
            Round::Split { count } => write!(f, "split {count}"),
            Round::Settled { count } => write!(f, "settled {count}"),
        }
    }
}

impl fmt::Display for Settling {
    ghost output = { λ s. Some (settling_text s) };

    fn fmt<W: fmt::Write>(&self, f: &mut fmt::Formatter<W>) -> fmt::Result {
        let Settling { rounds, count } = *self;
        write!(f, "rounds {rounds} count {count}")
    }
}

impl fmt::Display for Pair {
    ghost output = { λ p. Some (pair_text p) };

    fn fmt<W: fmt::Write>(&self, f: &mut fmt::Formatter<W>) -> fmt::Result {
        match self {
            Pair::Apart(j) => write!(f, "apart {j}"),
            Pair::Together => write!(f, "together"),
            Pair::Equivalent => write!(f, "equivalent"),
        }
    }
}

impl fmt::Display for Table {
    ghost output = { λ t. Some (table_text t) };

    fn fmt<W: fmt::Write>(&self, f: &mut fmt::Formatter<W>) -> fmt::Result {
        let Table { classes, start } = *self;
        write!(f, "classes {classes} start {start}")
    }
}

impl fmt::Display for Refusal {
    ghost output = { λ e. Some (refusal_text e) };

    fn fmt<W: fmt::Write>(&self, f: &mut fmt::Formatter<W>) -> fmt::Result {
        let number = self.number();
        match self.value() {
            Some(value) => write!(f, "refused {number} {value}"),
            None => write!(f, "refused {number}"),
        }
    }
}
