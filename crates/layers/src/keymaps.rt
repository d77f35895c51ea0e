//! A machine under a key map.
ghost use Rattle.std.specs.Prelude.{◌≡◌};
ghost use Rattle.layers.specs.Keymaps.{kept, keymap, keymap_fits, keymap_of, keymap_whole};
ghost use Rattle.layers.specs.Layers.{Carries, counts_of};
ghost use Rattle.layers.specs.declared.faults.KeymapFault.TheVariants as side;
ghost use Rattle.layers.specs.KeymapLaws.{keymap_sizes, keymap_inside, keymap_closed};

use crate::counts::Counts;
use crate::misfits::part_misfit;
use crate::{Keymap, KeymapFault};
use arrayvec::ArrayVec;
use machine::{Cell, Fault as _, Machine};

impl<P: Machine> Keymap<P> {
    /// Never refuses: a list that is empty or too long, or a part that is a misfit, makes a misfit.
    pub fn new(part: P, keys: &[u16]) -> Keymap<P>
        ensures made { keymap_of P.Machine result ≡ keymap (P.Machine.means part) keys.now }
        ensures part_misfit { Carries side.Part (P.Machine.means part) (keymap_of P.Machine result) }
    {
        let mut copy = ArrayVec::new();
        // a list that is too long is left out whole
        let _ = copy.try_extend_from_slice(keys);
        Keymap { part, keys: copy }
    }

    #[inline]
    fn counts(&self) -> Option<Counts>
        ensures { let part = P.Machine.means self.now.part in
            let keys = kept self.now in
            result ≡ counts_of (keymap_fits part keys) (keymap_whole part keys) }
    {
        let states = self.part.states();
        let inputs = self.keys.len() as u16;
        (states != 0 && inputs != 0).then_some(Counts { states, inputs })
    }
}

impl<P: Machine> Machine for Keymap<P> {
    type Out = P::Out;

    type Fault = KeymapFault<P::Fault>;

    ghost means = { keymap_of P.Machine };

    ghost sizes = { λ m. keymap_sizes (P.Machine.means m.part) (kept m) (P.Machine.sizes m.part) };

    ghost inside = { λ m. keymap_inside (P.Machine.means m.part) (kept m) };

    ghost closed = { λ m. keymap_closed (P.Machine.means m.part) (kept m) (P.Machine.closed m.part) };

    // stays: three answers by counts(), as in the other layers; counts.rt says why
    fn states(&self) -> u16 {
        self.counts().map_or(0, |counts| counts.states)
    }

    fn inputs(&self) -> u16 {
        self.counts().map_or(0, |counts| counts.inputs)
    }

    fn start(&self) -> u16 {
        self.counts().map_or(0, |_| self.part.start())
    }

    fn entry(&self, state: u16, input: u16) -> Result<Cell<P::Out>, KeymapFault<P::Fault>> {
        let Some(counts) = self.counts() else {
            return Err(part_misfit(&self.part, state, input));
        };
        counts.test(state, input)?;
        self.part
            .entry(state, self.keys[input as usize])
            .map_err(KeymapFault::Part)
    }
}
