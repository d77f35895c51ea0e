//! A machine that feeds another.
ghost use Rattle.std.specs.Prelude.{◌≡◌, ◌≤◌};
ghost use Rattle.layers.specs.Layers.{Carries, counts_of};
ghost use Rattle.layers.specs.Trains.{fed, train, train_fits, train_of, train_whole};
ghost use Rattle.layers.specs.declared.faults.PairFault.TheVariants as pair;
ghost use Rattle.layers.specs.TrainLaws.{train_sizes, train_inside, train_closed};

use crate::counts::Counts;
use crate::faults::{InFirst, InSecond};
use crate::misfits::pair_misfit;
use crate::{PairFault, Train};
use machine::{Cell, Command, Fault as _, MOST_STATES, Machine};

impl<L: Machine<Out = Command>, U: Machine> Train<L, U> {
    /// Never refuses: parts that do not go together make a misfit.
    pub fn new(lower: L, upper: U) -> Train<L, U>
        ensures made { train_of L.Machine U.Machine result ≡ train (L.Machine.means lower) (U.Machine.means upper) }
        ensures lower_misfit { Carries pair.First (L.Machine.means lower) (train_of L.Machine U.Machine result) }
        ensures upper_misfit { 1 ≤ (L.Machine.means lower).states → Carries pair.Second (U.Machine.means upper) (train_of L.Machine U.Machine result) }
    {
        Train { lower, upper }
    }

    #[inline]
    fn counts(&self) -> Option<Counts>
        ensures { let lower = L.Machine.means self.now.lower in
            let upper = U.Machine.means self.now.upper in
            result ≡ counts_of (train_fits lower upper) (train_whole lower upper) }
    {
        let lower = self.lower.states();
        let upper = self.upper.states();
        let states = lower * upper;
        let fits = lower != 0 && upper != 0 && states <= MOST_STATES;
        // parts that do not go together are asked for nothing else, since each question goes down to the bottom of the layers
        fits.then(|| Counts {
            states,
            inputs: self.lower.inputs(),
        })
    }
}

/// The input of an upper part with some inputs that a command is: one that is too large is the highest.
fn feed(command: Command, inputs: u16) -> u16
    requires { 1 ≤ inputs }
    ensures { result ≡ fed command inputs }
{
    command.number.min(inputs - 1)
}

impl<L: Machine<Out = Command>, U: Machine> Machine for Train<L, U> {
    type Out = U::Out;

    type Fault = PairFault<L::Fault, U::Fault>;

    ghost means = { train_of L.Machine U.Machine };

    ghost sizes = { λ m.
        train_sizes (L.Machine.means m.lower) (U.Machine.means m.upper)
        (L.Machine.sizes m.lower) (U.Machine.sizes m.upper) };

    ghost inside = { λ m. train_inside (L.Machine.means m.lower) (U.Machine.means m.upper) };

    ghost closed = { λ m.
        train_closed (L.Machine.means m.lower) (U.Machine.means m.upper)
        (L.Machine.closed m.lower) (U.Machine.closed m.upper) };

    // stays: three answers by counts(), as in the other layers; counts.rt says why
    fn states(&self) -> u16 {
        self.counts().map_or(0, |counts| counts.states)
    }

    fn inputs(&self) -> u16 {
        self.counts().map_or(0, |counts| counts.inputs)
    }

    fn start(&self) -> u16 {
        self.counts().map_or(0, |_| {
            self.lower.start() * self.upper.states() + self.upper.start()
        })
    }

    #[inline]
    fn entry(&self, state: u16, input: u16) -> Result<Cell<U::Out>, PairFault<L::Fault, U::Fault>> {
        let Some(counts) = self.counts() else {
            return Err(pair_misfit(&self.lower, &self.upper, state, input));
        };
        counts.test(state, input)?;
        let size = self.upper.states();
        let lower = self.lower.entry(state / size, input).map_err(InFirst)?;
        let fed = feed(lower.output, self.upper.inputs());
        let upper = self.upper.entry(state % size, fed).map_err(InSecond)?;
        Ok(Cell {
            next: lower.next * size + upper.next,
            ..upper
        })
    }
}
