//! Two machines beside each other.
ghost use Rattle.std.specs.Prelude.{◌≡◌, ◌≤◌};
ghost use Rattle.layers.specs.Besides.{beside, beside_fits, beside_of, beside_whole};
ghost use Rattle.layers.specs.Layers.{Carries, counts_of};
ghost use Rattle.layers.specs.declared.faults.PairFault.TheVariants as pair;
ghost use Rattle.layers.specs.BesideLaws.{beside_sizes, beside_inside, beside_closed};

use crate::counts::Counts;
use crate::faults::{InFirst, InSecond};
use crate::misfits::pair_misfit;
use crate::{Beside, PairFault};
use machine::{Cell, Fault as _, MOST_STATES, Machine};

impl<P: Machine, Q: Machine<Out = P::Out>> Beside<P, Q> {
    /// Never refuses: parts that do not go together make a misfit.
    pub fn new(first: P, second: Q) -> Beside<P, Q>
        ensures made { beside_of P.Machine Q.Machine result ≡ beside (P.Machine.means first) (Q.Machine.means second) }
        ensures first_misfit { Carries pair.First (P.Machine.means first) (beside_of P.Machine Q.Machine result) }
        ensures second_misfit { 1 ≤ (P.Machine.means first).states → Carries pair.Second (Q.Machine.means second) (beside_of P.Machine Q.Machine result) }
    {
        Beside { first, second }
    }

    #[inline]
    fn counts(&self) -> Option<Counts>
        ensures { let first = P.Machine.means self.now.first in
            let second = Q.Machine.means self.now.second in
            result ≡ counts_of (beside_fits first second) (beside_whole first second) }
    {
        let first = self.first.states();
        let second = self.second.states();
        // a part that is a misfit is asked for nothing else, since each question goes down to the bottom of its layers
        if first == 0 || second == 0 {
            return None;
        }
        let states = first + second;
        let inputs = self.first.inputs();
        let fits = inputs == self.second.inputs() && states <= MOST_STATES;
        fits.then_some(Counts { states, inputs })
    }
}

impl<P: Machine, Q: Machine<Out = P::Out>> Machine for Beside<P, Q> {
    type Out = P::Out;

    type Fault = PairFault<P::Fault, Q::Fault>;

    ghost means = { beside_of P.Machine Q.Machine };

    ghost sizes = { λ m.
        beside_sizes (P.Machine.means m.first) (Q.Machine.means m.second)
        (P.Machine.sizes m.first) (Q.Machine.sizes m.second) };

    ghost inside = { λ m. beside_inside (P.Machine.means m.first) (Q.Machine.means m.second) };

    ghost closed = { λ m.
        beside_closed (P.Machine.means m.first) (Q.Machine.means m.second)
        (P.Machine.closed m.first) (Q.Machine.closed m.second) };

    // stays: three answers by counts(), as in the other layers; counts.rt says why
    fn states(&self) -> u16 {
        self.counts().map_or(0, |counts| counts.states)
    }

    fn inputs(&self) -> u16 {
        self.counts().map_or(0, |counts| counts.inputs)
    }

    fn start(&self) -> u16 {
        self.counts().map_or(0, |_| self.first.start())
    }

    #[inline]
    fn entry(&self, state: u16, input: u16) -> Result<Cell<P::Out>, PairFault<P::Fault, Q::Fault>> {
        let Some(counts) = self.counts() else {
            return Err(pair_misfit(&self.first, &self.second, state, input));
        };
        counts.test(state, input)?;
        let shift = self.first.states();
        if state < shift {
            return Ok(self.first.entry(state, input).map_err(InFirst)?);
        }
        let moved = self.second.entry(state - shift, input).map_err(InSecond)?;
        Ok(Cell {
            next: shift + moved.next,
            ..moved
        })
    }
}
