//! Why parts do not go together.
ghost use Rattle.std.specs.Prelude.{◌≡◌};
ghost use Rattle.layers.specs.Layers.{MisfitOf, pair_misfit, part_misfit};

use crate::{KeymapFault, LayerFault, PairFault};
use machine::{Cause, Machine, OwnFault as _};

/// The fault of a part that is a misfit, which has one for every state and input.
fn misfit_of<M: Machine>(part: &M, state: u16, input: u16) -> Option<M::Fault>
    ensures { MisfitOf (M.Machine.means part.now) state input result }
{
    if part.states() == 0 {
        part.entry(state, input).err()
    } else {
        None
    }
}

/// The fault of the part that is a misfit, the first before the second; the layer's own if neither is.
pub(crate) fn pair_misfit<P: Machine, Q: Machine>(
    first: &P,
    second: &Q,
    state: u16,
    input: u16,
) -> PairFault<P::Fault, Q::Fault>
    ensures { result ≡ pair_misfit (P.Machine.means first.now) (Q.Machine.means second.now) state input }
{
    if let Some(fault) = misfit_of(first, state, input) {
        PairFault::First(fault)
    } else if let Some(fault) = misfit_of(second, state, input) {
        PairFault::Second(fault)
    } else {
        PairFault::Own(LayerFault::own(Cause::Misfit, state, input))
    }
}

pub(crate) fn part_misfit<P: Machine>(part: &P, state: u16, input: u16) -> KeymapFault<P::Fault>
    ensures { result ≡ part_misfit (P.Machine.means part.now) state input }
{
    misfit_of(part, state, input).map_or(
        KeymapFault::Own(LayerFault::own(Cause::Misfit, state, input)),
        KeymapFault::Part,
    )
}
