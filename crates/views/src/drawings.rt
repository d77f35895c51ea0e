//! The reduced machine as Graphviz text.
// stays: text and reduction as two parameters, as in listings: a type with `impl Display` for each function would be an `output` and a proof more
ghost use Rattle.std.specs.Prelude.{◌≡◌, ◌++◌, string_bytes, OnOk};
ghost use Rattle.listings.specs.Lists.{lists_in};
ghost use Rattle.views.specs.Drawings.{node_text, edge_text, edges_from, class_text, classes_text, drawing_text};

use crate::members::push_members;
use listings::View;
use listings::lines::cell_at;
use machine::{Cell, Command};
use reductions::Reduction;
use std::alloc::AllocError;

/// A node for each class, with the states that it joins, and an edge for each class and input, with the input and the output.
#[derive(Clone, Copy)]
pub struct Drawing;

impl View for Drawing {
    ghost shown = { λ _. drawing_text };

    fn push(&self, text: &mut String, reduction: &Reduction<Command>) -> Result<(), AllocError> {
        let start = reduction.table.start;
        write!(
            text,
            "digraph reduced {{\n  rankdir=LR\n  start [shape=point]\n  start -> {start}\n"
        )?;
        push_classes(text, reduction)?;
        write!(text, "}}\n")
    }
}

// stays: a loop over the classes as in listings, where the line shows why
fn push_classes(text: &mut String, reduction: &Reduction<Command>) -> Result<(), AllocError>
    ensures { OnOk result (string_bytes text.new ≡ string_bytes text.old ++ classes_text (lists_in reduction.now)) }
{
    for class in 0..reduction.table.classes {
        push_class(text, reduction, class)?;
    }
    Ok(())
}

fn push_class(
    text: &mut String,
    reduction: &Reduction<Command>,
    class: u16,
) -> Result<(), AllocError>
    ensures { OnOk result (string_bytes text.new ≡ string_bytes text.old ++ class_text (lists_in reduction.now) class) }
{
    push_node(text, &reduction.map, class)?;
    push_edges(text, reduction, class)
}

fn push_node(text: &mut String, numbering: &[u16], class: u16) -> Result<(), AllocError>
    ensures { OnOk result (string_bytes text.new ≡ string_bytes text.old ++ node_text numbering.now class) }
{
    write!(text, "  {class} [label=\"{class}:")?;
    push_members(text, numbering, class)?;
    write!(text, "\"]\n")
}

fn push_edges(
    text: &mut String,
    reduction: &Reduction<Command>,
    class: u16,
) -> Result<(), AllocError>
    ensures { OnOk result (string_bytes text.new ≡ string_bytes text.old ++ edges_from (lists_in reduction.now) class) }
{
    for input in 0..reduction.inputs {
        push_edge(text, reduction, class, input)?;
    }
    Ok(())
}

fn push_edge(
    text: &mut String,
    reduction: &Reduction<Command>,
    class: u16,
    input: u16,
) -> Result<(), AllocError>
    ensures { OnOk result (string_bytes text.new ≡ string_bytes text.old ++ edge_text (lists_in reduction.now) class input) }
{
    let Cell { next, output } = cell_at(reduction, class, input);
    write!(text, "  {class} -> {next} [label=\"{input}/{output}\"]\n")
}
