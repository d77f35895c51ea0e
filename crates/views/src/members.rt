//! The states that a class joins.
ghost use Rattle.std.specs.Prelude.{◌≡◌, ◌++◌, string_bytes, OnOk};
ghost use Rattle.views.specs.Members.{members_text};

use std::alloc::AllocError;

/// Adds the states of a class, rising.
pub(crate) fn push_members(
    text: &mut String,
    numbering: &[u16],
    class: u16,
) -> Result<(), AllocError>
    ensures { OnOk result (string_bytes text.new ≡ string_bytes text.old ++ members_text numbering.now class) }
{
    for (state, own) in numbering.iter().enumerate() {
        if *own == class {
            write!(text, " {state}")?;
        }
    }
    Ok(())
}
