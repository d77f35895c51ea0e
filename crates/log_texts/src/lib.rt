//! A log as text, a line for each call.
#![tactic(auto)]

ghost use Rattle.std.specs.Prelude.{◌≡◌, ◌++◌, string_bytes, OnOk};
ghost use Rattle.runs.specs.Lines.{entry_at};
ghost use Rattle.log_texts.specs.Lines.{kept_text, table_text, buffers_text, line_text};

use machine::Command;
use runs::{Call, Line};
use std::alloc::AllocError;
use texts::push_each;

// stays: a text and what it is to tell, here and below, as listings says at its head: else each function would be a type, an impl and an `output`
/// Adds a line for an entry of a log: the call, what it was answered, and the buffers that such a call may write, as it left them.
pub fn push_line(text: &mut String, line: &Line<Command>) -> Result<(), AllocError>
    ensures { OnOk result (string_bytes text.new ≡ string_bytes text.old ++ line_text (entry_at line.now)) }
{
    let Line { call, answer, .. } = line;
    write!(text, "{call}: {answer}")?;
    push_buffers(text, line)?;
    write!(text, "\n")
}

fn push_buffers(text: &mut String, line: &Line<Command>) -> Result<(), AllocError>
    ensures { OnOk result (string_bytes text.new ≡ string_bytes text.old ++ buffers_text (entry_at line.now)) }
{
    match line.call {
        Call::Round | Call::Pair(_, _) => Ok(()),
        Call::Map | Call::Word(_, _) => push_kept(text, &line.numbers),
        Call::Table => push_table(text, &line.next, &line.outputs),
    }
}

fn push_table(text: &mut String, next: &[u16], outputs: &[Command]) -> Result<(), AllocError>
    ensures { OnOk result (string_bytes text.new ≡ string_bytes text.old ++ table_text next.now outputs.now) }
{
    push_kept(text, next)?;
    write!(text, " and")?;
    push_each(text, outputs)
}

fn push_kept(text: &mut String, numbers: &[u16]) -> Result<(), AllocError>
    ensures { OnOk result (string_bytes text.new ≡ string_bytes text.old ++ kept_text numbers.now) }
{
    write!(text, " with")?;
    push_each(text, numbers)
}
