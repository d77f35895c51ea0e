//! A card for a panel that was left in an unknown mode.
// stays: text and reduction as two parameters, as in listings: a type with `impl Display` for each function would be an `output` and a proof more
ghost use Rattle.std.specs.Prelude.{◌≡◌, ◌++◌, map, IfOk, string_bytes, OnOk};
ghost use Rattle.reductions.specs.Aparts.{apart_of};
ghost use Rattle.listings.specs.Lists.{lists_in};
ghost use Rattle.views.specs.Cards.{card_text, mode_text, modes_text, run_text, telling_text, tellings_text, Ran};
ghost use Rattle.views.specs.Telling.{CardTellsModes};

use crate::members::push_members;
use listings::View;
use listings::lines::cell_at;
use machine::{Cell, Command};
use reductions::{Apart, Reduction};
use std::alloc::AllocError;
use texts::push_each;

/// The modes that are left, and for each two of them the keys that tell which of them the panel was in, and which it is in then.
#[derive(Clone, Copy)]
pub struct Card;

impl View for Card {
    ghost shown = { λ _. card_text };

    fn push(&self, text: &mut String, reduction: &Reduction<Command>) -> Result<(), AllocError> {
        push_modes(text, reduction)?;
        push_tellings(text, reduction)
    }
}

/// Each two modes of a card show different outputs on the keys of their line.
pub fn cards_tell_modes()
    ensures { CardTellsModes }
{}

// stays: a loop over the classes as in listings, where the line shows why
fn push_modes(text: &mut String, reduction: &Reduction<Command>) -> Result<(), AllocError>
    ensures { OnOk result (string_bytes text.new ≡ string_bytes text.old ++ modes_text (lists_in reduction.now)) }
{
    for class in 0..reduction.table.classes {
        push_mode(text, &reduction.map, class)?;
    }
    Ok(())
}

fn push_mode(text: &mut String, numbering: &[u16], class: u16) -> Result<(), AllocError>
    ensures { OnOk result (string_bytes text.new ≡ string_bytes text.old ++ mode_text numbering.now class) }
{
    write!(text, "mode {class} is state")?;
    push_members(text, numbering, class)?;
    write!(text, "\n")
}

fn push_tellings(text: &mut String, reduction: &Reduction<Command>) -> Result<(), AllocError>
    ensures { OnOk result (string_bytes text.new ≡ string_bytes text.old ++ tellings_text (lists_in reduction.now)) }
{
    for apart in &reduction.aparts {
        push_telling(text, reduction, apart)?;
    }
    Ok(())
}

/// The keys for two modes, and what each of them answers.
fn push_telling(
    text: &mut String,
    reduction: &Reduction<Command>,
    apart: &Apart,
) -> Result<(), AllocError>
    ensures { OnOk result (string_bytes text.new ≡ string_bytes text.old ++ telling_text (lists_in reduction.now) (apart_of apart.now)) }
{
    let first = apart.first;
    let second = apart.second;
    write!(text, "mode {first} or {second}: press")?;
    push_each(text, &apart.word)?;
    push_run(text, reduction, first, &apart.word)?;
    push_run(text, reduction, second, &apart.word)?;
    write!(text, "\n")
}

/// What a mode shows on a word, and the mode after it.
fn push_run(
    text: &mut String,
    reduction: &Reduction<Command>,
    mode: u16,
    word: &[u16],
) -> Result<(), AllocError>
    ensures { OnOk result (string_bytes text.new ≡ string_bytes text.old ++ run_text (lists_in reduction.now) mode word.now) }
{
    write!(text, "; {mode} shows")?;
    let last = push_answers(text, reduction, mode, word)?;
    write!(text, " and is then {last}")
}

/// Adds the outputs that a mode meets on a word, and gives the mode after it.
fn push_answers(
    text: &mut String,
    reduction: &Reduction<Command>,
    mode: u16,
    word: &[u16],
) -> Result<u16, AllocError>
    ensures { IfOk result (λ last. Ran (lists_in reduction.now) mode word.now (string_bytes text.old) (string_bytes text.new) last) }
{
    let mut at = mode;
    for input in word {
        let Cell { next, output } = cell_at(reduction, at, *input);
        write!(text, " {output}")?;
        at = next;
    }
    Ok(at)
}
