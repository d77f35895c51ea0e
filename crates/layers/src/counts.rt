//! How many states and inputs a layer has.
ghost use Rattle.std.specs.Prelude.{◌≡◌};
ghost use Rattle.layers.specs.Layers.{bounds_test};

use crate::LayerFault;
use machine::test_range;

// stays: states(), inputs() and start() in each of the three layers; an `impl<L: Layer> Machine for L` would lap over the impls of the forms
/// The counts of a layer whose parts go together; one whose parts do not has none.
#[derive(Clone, Copy)]
pub(crate) struct Counts {
    pub states: u16,
    pub inputs: u16,
}

impl Counts {
    // a hint, here and in the layers: these are asked at every cell
    /// Causes 1 and 2, which a layer finds itself, before it asks a part.
    #[inline]
    pub(crate) fn test(self, state: u16, input: u16) -> Result<(), LayerFault>
        ensures { result ≡ bounds_test self.states self.inputs state input }
    {
        test_range(self.states, self.inputs, state, input)
    }
}
