//! A script: numbers, read one after the other.
ghost use Rattle.std.specs.Prelude.{◌≡◌, drop, slice_index};

use crate::troubles::Trouble;
use forms::{Chain, Grid, OpenRefusal, Ring};
use machine::{Command, Output, WheelMove};
use sheet::Table;
use std::alloc::{AllocError, Global};
use std::slice;
use tables::open_table;

/// The numbers that are left to read.
#[derive(Drop)]
pub(crate) struct Script<'a> {
    heap: Global,
    numbers: slice::Iter<'a, u16>,
}

/// What a script has lists of.
pub(crate) trait Scripted: Drop {
    fn read(script: &mut Script<'_>) -> Self;
}

impl Scripted for u16 {
    fn read(script: &mut Script<'_>) -> u16 {
        script.number()
    }
}

impl Scripted for Command {
    fn read(script: &mut Script<'_>) -> Command {
        Command {
            number: script.number(),
        }
    }
}

impl Scripted for WheelMove {
    fn read(script: &mut Script<'_>) -> WheelMove {
        let lift = script.offset();
        let gamma = script.offset();
        let gain = script.offset();
        WheelMove { lift, gamma, gain }
    }
}

impl<'a> Script<'a> {
    pub(crate) fn new(heap: Global, numbers: &'a [u16]) -> Script<'a>
        ensures { result.numbers.rest.now ≡ numbers.now }
    {
        Script {
            heap,
            numbers: numbers.iter(),
        }
    }

    pub(crate) fn heap(&self) -> Global
        ensures { result ≡ self.now.heap }
    {
        self.heap
    }

    // stays: bridge_play answers every script, and one that ends early goes on with 0; an Option would end in a refusal that C does not know
    /// The next number; 0 past the end.
    pub(crate) fn number(&mut self) -> u16
        ensures value { result ≡ slice_index self.old.numbers.rest.now 0 }
        ensures rest { self.new.numbers.rest.now ≡ drop 1 self.old.numbers.rest.now }
    {
        self.numbers.next().copied().unwrap_or(0)
    }

    /// A number, signed.
    fn offset(&mut self) -> i16 {
        self.number().cast_signed()
    }

    /// A count, and so many items.
    pub(crate) fn list<T: Scripted>(&mut self) -> Result<Vec<T>, AllocError> {
        let mut items = Vec::new(self.heap);
        for _ in 0..self.number() {
            items.push(T::read(self))?;
        }
        Ok(items)
    }

    /// A count, and so many bytes, two to a number, the low one first.
    pub(crate) fn bytes(&mut self) -> Result<Vec<u8>, AllocError> {
        let mut bytes = Vec::new(self.heap);
        let count = self.number();
        for _ in 0..count.div_ceil(2) {
            bytes.extend_from_slice(&self.number().to_le_bytes())?;
        }
        bytes.truncate(count as usize);
        Ok(bytes)
    }

    pub(crate) fn ring(&mut self) -> Result<Ring, Trouble> {
        Ok(Ring::open(self.number())?)
    }

    pub(crate) fn chain(&mut self) -> Result<Chain, Trouble> {
        Ok(Chain::open(self.bytes()?)?)
    }

    /// Sizes, the start and the two lists, opened in the way that is given.
    fn opened<
        O: Output + Scripted,
        F: FnOnce(u16, u16, u16, Vec<u16>, Vec<O>) -> Result<Grid<O>, OpenRefusal>,
    >(&mut self, to_grid: F) -> Result<Grid<O>, Trouble>
        requires { F.IsAlwaysCallable to_grid }
    {
        let states = self.number();
        let inputs = self.number();
        let start = self.number();
        let next = self.list()?;
        let outputs = self.list()?;
        Ok(to_grid(states, inputs, start, next, outputs)?)
    }

    pub(crate) fn grid<O: Output + Scripted>(&mut self) -> Result<Grid<O>, Trouble> {
        self.opened(Grid::open)
    }

    /// The written part of two buffers, opened as the table that they are said to be.
    pub(crate) fn table(&mut self) -> Result<Grid<Command>, Trouble> {
        self.opened(|classes, inputs, start, next, outputs| {
            open_table(Table { classes, start }, inputs, next, outputs)
        })
    }
}
