//! What ends a script early.
ghost use Rattle.std.specs.Prelude.{◌≡◌};
ghost use Rattle.bridge.specs.declared.troubles.Trouble.TheVariants.{Open, Memory};

use forms::OpenRefusal;
use std::alloc::{AllocError, AllocFailed};

// stays: as in stacks but for the output, which is none of a library; one type for both would need a crate for two variants
/// A form that does not open, or no memory.
#[derive(Drop)]
pub(crate) enum Trouble {
    Open(OpenRefusal),
    Memory,
}

impl From<OpenRefusal> for Trouble {
    ghost from_gives = { λ x r. r ≡ Open x };

    fn from(refusal: OpenRefusal) -> Trouble {
        Trouble::Open(refusal)
    }
}

impl From<AllocError> for Trouble {
    ghost from_gives = { λ _ r. r ≡ Memory };

    fn from(_error: AllocError) -> Trouble {
        Trouble::Memory
    }
}

impl<T: Drop> From<AllocFailed<T>> for Trouble {
    ghost from_gives = { λ _ r. r ≡ Memory };

    fn from(_refused: AllocFailed<T>) -> Trouble {
        Trouble::Memory
    }
}
