//! Calls and answers in words.
ghost use Rattle.std.specs.Prelude.{Some};
ghost use Rattle.runs.specs.Texts.{answer_text, call_text};

use crate::{Answer, Call};
use std::fmt;

impl fmt::Display for Call {
    ghost output = { λ k. Some (call_text k) };

    fn fmt<W: fmt::Write>(&self, f: &mut fmt::Formatter<W>) -> fmt::Result {
        match self {
            Call::Round => write!(f, "round"),
            Call::Pair(s, t) => write!(f, "pair {s} {t}"),
            Call::Map => write!(f, "map"),
            Call::Word(s, t) => write!(f, "word {s} {t}"),
            Call::Table => write!(f, "table"),
        }
    }
}

impl fmt::Display for Answer {
    ghost output = { λ a. Some (answer_text a) };

    fn fmt<W: fmt::Write>(&self, f: &mut fmt::Formatter<W>) -> fmt::Result {
        match self {
            Answer::Round(Ok(round)) => write!(f, "{round}"),
            Answer::Pair(Ok(pair)) => write!(f, "{pair}"),
            Answer::Map(Ok(())) => write!(f, "done"),
            Answer::Word(Ok(length)) => write!(f, "{length}"),
            Answer::Table(Ok(table)) => write!(f, "{table}"),
            Answer::Round(Err(refusal))
            | Answer::Pair(Err(refusal))
            | Answer::Map(Err(refusal))
            | Answer::Word(Err(refusal))
            | Answer::Table(Err(refusal)) => write!(f, "{refusal}"),
        }
    }
}
