//! The machines that a script can name.
use crate::calls::Play;
use crate::lines::push_check_refusal;
use crate::scripts::Script;
use crate::troubles::Trouble;
use layers::{Beside, Keymap, Train};
use machine::{Command, Fault, WheelMove};
use std::alloc::Global;
use writing::{NormalRefusal, normalised};

/// A machine, or a chain to put in normal form.
#[derive(Clone, Copy)]
enum Kind {
    Chain,
    Grid,
    Wheels,
    Ring,
    KeyedChain,
    ChainUnderRing,
    ChainBesideChain,
    Rings,
    CommandsThreeDeep,
    WheelsThreeDeep,
    Table,
    NormalForm,
}

/// A kind by its number in a script.
impl From<u16> for Kind {
    fn from(number: u16) -> Kind {
        match number {
            0 => Kind::Chain,
            1 => Kind::Grid,
            2 => Kind::Wheels,
            3 => Kind::Ring,
            4 => Kind::KeyedChain,
            5 => Kind::ChainUnderRing,
            6 => Kind::ChainBesideChain,
            7 => Kind::Rings,
            8 => Kind::CommandsThreeDeep,
            9 => Kind::WheelsThreeDeep,
            10 => Kind::Table,
            _ => Kind::NormalForm,
        }
    }
}

impl Play<'_> {
    /// Keys over a chain.
    fn keyed_chain(&mut self) -> Result<(), Trouble> {
        let part = self.script.chain()?;
        let keys = self.script.list::<u16>()?;
        self.tell_commands(Keymap::new(part, &keys))
    }

    fn chain_under_ring(&mut self) -> Result<(), Trouble> {
        let lower = self.script.chain()?;
        let upper = self.script.ring()?;
        self.tell_commands(Train::new(lower, upper))
    }

    fn chain_beside_chain(&mut self) -> Result<(), Trouble> {
        let first = self.script.chain()?;
        let second = self.script.chain()?;
        self.tell_commands(Beside::new(first, second))
    }

    /// A train of keys over a ring and of two rings beside each other.
    fn rings(&mut self) -> Result<(), Trouble> {
        let part = self.script.ring()?;
        let keys = self.script.list::<u16>()?;
        let lower = Keymap::new(part, &keys);
        let first = self.script.ring()?;
        let second = self.script.ring()?;
        let upper = Beside::new(first, second);
        self.tell_commands(Train::new(lower, upper))
    }

    /// Three layers: keys over a train of a chain and a grid, beside keys over a ring.
    fn commands_three_deep(&mut self) -> Result<(), Trouble> {
        let chain = self.script.chain()?;
        let grid = self.script.grid::<Command>()?;
        let train = Train::new(chain, grid);
        let ring = self.script.ring()?;
        let keys = self.script.list::<u16>()?;
        let keyed = Keymap::new(ring, &keys);
        let both = Beside::new(train, keyed);
        let keys = self.script.list::<u16>()?;
        self.tell_commands(Keymap::new(both, &keys))
    }

    /// Three layers with wheel moves: a train of a chain under keys and a wheel grid, beside keys over another.
    fn wheels_three_deep(&mut self) -> Result<(), Trouble> {
        let chain = self.script.chain()?;
        let keys = self.script.list::<u16>()?;
        let lower = Keymap::new(chain, &keys);
        let upper = self.script.grid::<WheelMove>()?;
        let train = Train::new(lower, upper);
        let part = self.script.grid::<WheelMove>()?;
        let keys = self.script.list::<u16>()?;
        let keyed = Keymap::new(part, &keys);
        self.tell(Beside::new(train, keyed))
    }

    /// A chain in normal form.
    fn normal_form(&mut self) -> Result<(), Trouble> {
        let bytes = self.script.bytes()?;
        match normalised(self.script.heap(), bytes) {
            Ok(written) => self.tell_items(&written),
            Err(NormalRefusal::Unopened(refusal)) => Err(Trouble::Open(refusal)),
            Err(NormalRefusal::Unsound(refusal)) => {
                Ok(push_check_refusal(&mut self.text, &refusal)?)
            }
            Err(NormalRefusal::NoMemory) => Err(Trouble::Memory),
        }
    }

    /// The machine that the first number of the script names.
    fn tell_script(&mut self) -> Result<(), Trouble> {
        match Kind::from(self.script.number()) {
            Kind::Chain => {
                let chain = self.script.chain()?;
                self.tell_commands(chain)
            }
            Kind::Grid => {
                let grid = self.script.grid::<Command>()?;
                self.tell_commands(grid)
            }
            Kind::Wheels => {
                let wheels = self.script.grid::<WheelMove>()?;
                self.tell(wheels)
            }
            Kind::Ring => {
                let ring = self.script.ring()?;
                self.tell_commands(ring)
            }
            Kind::KeyedChain => self.keyed_chain(),
            Kind::ChainUnderRing => self.chain_under_ring(),
            Kind::ChainBesideChain => self.chain_beside_chain(),
            Kind::Rings => self.rings(),
            Kind::CommandsThreeDeep => self.commands_three_deep(),
            Kind::WheelsThreeDeep => self.wheels_three_deep(),
            Kind::Table => {
                let table = self.script.table()?;
                self.tell_commands(table)
            }
            Kind::NormalForm => self.normal_form(),
        }
    }
}

/// The text of a whole script. A form that does not open ends it.
pub(crate) fn play_script(heap: Global, numbers: &[u16]) -> Result<String, Trouble> {
    let mut play = Play {
        script: Script::new(heap, numbers),
        text: String::new(heap),
    };
    let told = play.tell_script();
    let Play { mut text, .. } = play;
    match told {
        Err(Trouble::Open(refusal)) => {
            write!(text, "{refusal}\n")?;
            Ok(text)
        }
        Err(Trouble::Memory) => Err(Trouble::Memory),
        Ok(()) => Ok(text),
    }
}
