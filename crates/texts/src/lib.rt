//! Pieces of the lines that programs print.
#![tactic(auto)]

ghost use Rattle.std.specs.Prelude.{string_bytes, OnOk};
ghost use Rattle.texts.specs.Each.{AddsPrinted};

use std::alloc::AllocError;
use std::fmt;

// stays: a text and items, as listings says at its head: a type `Each<'a, T>(&'a [T])` with a Display would be an impl and an `output` more
/// Adds to a text what each item prints, after a space.
pub fn push_each<T: fmt::Display>(text: &mut String, items: &[T]) -> Result<(), AllocError>
    ensures { OnOk result (AddsPrinted T.output items.now (string_bytes text.old) (string_bytes text.new)) }
{
    for item in items {
        write!(text, " {item}")?;
    }
    Ok(())
}
