//! Answers as lines of text.
// stays: a text and what it is to tell, as listings says at its head: else each function would be a type, an impl and an `output`
ghost use Rattle.std.specs.Prelude.{◌≡◌, ◌++◌, string_bytes, OnOk};
ghost use Rattle.std.specs.Fmt.{AppendsText};
ghost use Rattle.bridge.specs.Lines.{answer_line, check_line, entry_line, fault_line, map_line, check_refusal_line, written_line};

use machine::{Cell, CheckRefusal, Fault};
use sheet::Refusal;
use std::alloc::AllocError;
use std::fmt;
use writing::WriteRefusal;

/// The cause at the bottom of a fault, and the fault in words, with its path of sides.
fn push_fault<F: Fault + fmt::Display>(text: &mut String, fault: &F) -> Result<(), AllocError>
    ensures { OnOk result (AppendsText (string_bytes text.old) (string_bytes text.new) (fault_line (F.Fault.root fault.now) (F.Display.output fault.now))) }
{
    let cause = fault.cause().number();
    write!(text, "cause {cause}, {fault}\n")
}

pub(crate) fn push_entry<O: fmt::Display, F: Fault + fmt::Display>(
    text: &mut String,
    entry: &Result<Cell<O>, F>,
) -> Result<(), AllocError>
    ensures { OnOk result (AppendsText (string_bytes text.old) (string_bytes text.new) (entry_line F.Fault.root F.Display.output O.Display.output entry.now)) }
{
    match entry {
        Ok(Cell { next, output }) => write!(text, "{next} {output}\n"),
        Err(fault) => push_fault(text, fault),
    }
}

pub(crate) fn push_check_refusal<F: Fault + fmt::Display>(
    text: &mut String,
    refusal: &CheckRefusal<F>,
) -> Result<(), AllocError>
    ensures { OnOk result (AppendsText (string_bytes text.old) (string_bytes text.new) (check_refusal_line F.Fault.root F.Display.output refusal.now)) }
{
    write!(text, "{refusal}\n")
}

pub(crate) fn push_check<F: Fault + fmt::Display>(
    text: &mut String,
    checked: &Result<(), CheckRefusal<F>>,
) -> Result<(), AllocError>
    ensures { OnOk result (AppendsText (string_bytes text.old) (string_bytes text.new) (check_line F.Fault.root F.Display.output checked.now)) }
{
    match checked {
        Ok(()) => write!(text, "sound\n"),
        Err(refusal) => push_check_refusal(text, refusal),
    }
}

pub(crate) fn push_write<F: Fault + fmt::Display>(
    text: &mut String,
    written: &Result<usize, WriteRefusal<F>>,
) -> Result<(), AllocError>
    ensures { OnOk result (AppendsText (string_bytes text.old) (string_bytes text.new) (written_line F.Fault.root F.Display.output written.now)) }
{
    match written {
        Ok(count) => write!(text, "{count}\n"),
        Err(WriteRefusal::Unsound(refusal)) => push_check_refusal(text, refusal),
        Err(refusal @ WriteRefusal::Short { needed }) => {
            let number = refusal.number();
            write!(text, "refused {number} {needed}\n")
        }
    }
}

/// What a call on a sheet answers, in its own words, or the refusal.
pub(crate) fn push_answer<T: fmt::Display>(
    text: &mut String,
    answer: &Result<T, Refusal>,
) -> Result<(), AllocError>
    ensures { OnOk result (AppendsText (string_bytes text.old) (string_bytes text.new) (answer_line T.Display.output answer.now)) }
{
    match answer {
        Ok(value) => write!(text, "{value}\n"),
        Err(refusal) => write!(text, "{refusal}\n"),
    }
}

/// A map is done, and has no words of its own.
pub(crate) fn push_map(text: &mut String, map: Result<(), Refusal>) -> Result<(), AllocError>
    ensures { OnOk result (string_bytes text.new ≡ string_bytes text.old ++ map_line map) }
{
    push_answer(text, &map.map(|()| "done"))
}
