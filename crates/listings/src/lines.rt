//! A reduction in lines.
// stays: text and reduction; with `struct Rows<'a>(&'a Reduction<Command>)` and the like each function would be a type, an impl and an `output`
ghost use Rattle.std.specs.Prelude.{◌≡◌, ◌+◌, ◌*◌, ◌++◌, map, string_bytes, OnOk, slice_index};
ghost use Rattle.std.specs.List.{range_with_len, slice_get};
ghost use Rattle.std.specs.Option.{UnwrapsOrElse};
ghost use Rattle.reductions.specs.Aparts.{apart_of};
ghost use Rattle.texts.specs.Each.{each};
ghost use Rattle.listings.specs.Lines.{sizes_text, settling_text, map_text, cell_text, row_text, rows_text, apart_text, aparts_text, listing_text};
ghost use Rattle.listings.specs.Lists.{lists_in};

use crate::View;
use machine::{Cell, Command};
use reductions::{Apart, Reduction};
use std::alloc::AllocError;
use texts::push_each;

/// The plain listing: sizes, rounds, map, rows, and what tells classes apart.
#[derive(Clone, Copy)]
pub struct Listing;

impl View for Listing {
    ghost shown = { λ _. listing_text };

    fn push(&self, text: &mut String, reduction: &Reduction<Command>) -> Result<(), AllocError> {
        push_sizes(text, reduction)?;
        push_settling(text, reduction)?;
        push_map(text, &reduction.map)?;
        push_rows(text, reduction)?;
        push_aparts(text, &reduction.aparts)
    }
}

// stays: the line that reports has, too; a type with a Display for it would need a definition, a promise and an edit of its own
fn push_sizes(text: &mut String, reduction: &Reduction<Command>) -> Result<(), AllocError>
    ensures { OnOk result (string_bytes text.new ≡ string_bytes text.old ++ sizes_text (lists_in reduction.now)) }
{
    let states = reduction.states;
    let inputs = reduction.inputs;
    let start = reduction.start;
    write!(text, "states {states} inputs {inputs} start {start}\n")
}

fn push_settling(text: &mut String, reduction: &Reduction<Command>) -> Result<(), AllocError>
    ensures { OnOk result (string_bytes text.new ≡ string_bytes text.old ++ settling_text reduction.now.settling reduction.now.table.start) }
{
    let rounds = reduction.settling.rounds;
    let count = reduction.settling.count;
    let start = reduction.table.start;
    write!(text, "rounds {rounds} blocks {count} start {start}\n")
}

fn push_map(text: &mut String, numbering: &[u16]) -> Result<(), AllocError>
    ensures { OnOk result (string_bytes text.new ≡ string_bytes text.old ++ map_text numbering.now) }
{
    write!(text, "map")?;
    push_each(text, numbering)?;
    write!(text, "\n")
}

// stays: a loop over the classes as in views; with `each_class(text, reduction, |text, class| ..)` the closure would need clauses of its own
fn push_rows(text: &mut String, reduction: &Reduction<Command>) -> Result<(), AllocError>
    ensures { OnOk result (string_bytes text.new ≡ string_bytes text.old ++ rows_text (lists_in reduction.now)) }
{
    for class in 0..reduction.table.classes {
        push_row(text, reduction, class)?;
    }
    Ok(())
}

/// A class, then the next class and the output for each input.
fn push_row(text: &mut String, reduction: &Reduction<Command>, class: u16) -> Result<(), AllocError>
    ensures { OnOk result (string_bytes text.new ≡ string_bytes text.old ++ row_text (lists_in reduction.now) class) }
{
    write!(text, "row {class}")?;
    push_cells(text, reduction, class)?;
    write!(text, "\n")
}

fn push_cells(
    text: &mut String,
    reduction: &Reduction<Command>,
    class: u16,
) -> Result<(), AllocError>
    ensures { OnOk result (string_bytes text.new ≡ string_bytes text.old ++ each (cell_text (lists_in reduction.now)) (range_with_len (class * reduction.now.inputs) reduction.now.inputs)) }
{
    for input in 0..reduction.inputs {
        let Cell { next, output } = cell_at(reduction, class, input);
        write!(text, " {next} {output}")?;
    }
    Ok(())
}

/// The item at a place, or the default.
pub fn item_at<T: Copy + Default>(items: &[T], place: usize) -> T
    ensures { UnwrapsOrElse (slice_get items.now place) T.is_default result }
{
    items.get(place).copied().unwrap_or_default()
}

/// The next class and the output of a class at an input, by their place in the table.
pub fn cell_at(reduction: &Reduction<Command>, class: u16, input: u16) -> Cell<Command>
    ensures next { result.next ≡ slice_index (lists_in reduction.now).next (class * reduction.now.inputs + input) }
    ensures output { result.output.number ≡ slice_index (lists_in reduction.now).outputs (class * reduction.now.inputs + input) }
{
    let place = class as usize * reduction.inputs as usize + input as usize;
    Cell {
        next: item_at(&reduction.next, place),
        output: item_at(&reduction.outputs, place),
    }
}

fn push_aparts(text: &mut String, aparts: &[Apart]) -> Result<(), AllocError>
    ensures { OnOk result (string_bytes text.new ≡ string_bytes text.old ++ aparts_text (map apart_of aparts.now)) }
{
    for apart in aparts {
        push_apart(text, apart)?;
    }
    Ok(())
}

/// Two classes and the word for their lowest states.
fn push_apart(text: &mut String, apart: &Apart) -> Result<(), AllocError>
    ensures { OnOk result (string_bytes text.new ≡ string_bytes text.old ++ apart_text (apart_of apart.now)) }
{
    let first = apart.first;
    let second = apart.second;
    write!(text, "apart {first} {second} by")?;
    push_each(text, &apart.word)?;
    write!(text, "\n")
}
