//! What a script asks of a machine and of its sheet, told line by line.
use crate::buffers::{Item, buffer};
use crate::lines::{push_answer, push_check, push_entry, push_map, push_write};
use crate::scripts::Script;
use crate::troubles::Trouble;
use machine::{Command, Fault, Machine, check};
use sheet::Sheet;
use std::fmt;
use texts::push_each;
use writing::write_chain;

/// A script that is played: what is left to read of it, and the text of what was answered so far.
#[derive(Drop)]
pub(crate) struct Play<'a> {
    pub(crate) script: Script<'a>,
    pub(crate) text: String,
}

/// A call on a sheet.
#[derive(Clone, Copy)]
enum Call {
    Round,
    Settle,
    Pair,
    Map,
    Word,
    Table,
}

/// A call by its number in a script.
impl From<u16> for Call {
    fn from(number: u16) -> Call {
        match number {
            0 => Call::Round,
            1 => Call::Settle,
            2 => Call::Pair,
            3 => Call::Map,
            4 => Call::Word,
            _ => Call::Table,
        }
    }
}

impl Play<'_> {
    /// A line with what a buffer holds.
    pub(crate) fn tell_items<T: fmt::Display>(&mut self, items: &[T]) -> Result<(), Trouble> {
        push_each(&mut self.text, items)?;
        Ok(write!(self.text, "\n")?)
    }

    /// Sizes, the check, and entries: a count, and so many states and inputs.
    fn tell_machine<O: Item, F: Fault + fmt::Display, M: Machine<Out = O, Fault = F>>(
        &mut self,
        machine: &M,
    ) -> Result<(), Trouble> {
        // stays: the line that reports has, too; a type with a Display for it would need a definition, a promise and an edit of its own
        let states = machine.states();
        let inputs = machine.inputs();
        let start = machine.start();
        write!(self.text, "states {states} inputs {inputs} start {start}\n")?;
        push_check(&mut self.text, &check(machine))?;
        for _ in 0..self.script.number() {
            let s = self.script.number();
            let i = self.script.number();
            push_entry(&mut self.text, &machine.entry(s, i))?;
        }
        Ok(())
    }

    /// Written as a chain into buffers: a count, and so many lengths.
    fn tell_writes<F: Fault + fmt::Display, M: Machine<Out = Command, Fault = F>>(
        &mut self,
        machine: &M,
    ) -> Result<(), Trouble> {
        for _ in 0..self.script.number() {
            let mut out = buffer::<u8>(self.script.heap(), self.script.number())?;
            push_write(&mut self.text, &write_chain(machine, &mut out))?;
            self.tell_items(&out)?;
        }
        Ok(())
    }

    fn tell_map<M: Machine>(&mut self, sheet: &Sheet<M>) -> Result<(), Trouble> {
        let mut out = buffer::<u16>(self.script.heap(), self.script.number())?;
        push_map(&mut self.text, sheet.map(&mut out))?;
        self.tell_items(&out)
    }

    fn tell_word<M: Machine>(&mut self, sheet: &Sheet<M>) -> Result<(), Trouble> {
        let s = self.script.number();
        let t = self.script.number();
        let mut out = buffer::<u16>(self.script.heap(), self.script.number())?;
        push_answer(&mut self.text, &sheet.word(s, t, &mut out))?;
        self.tell_items(&out)
    }

    fn tell_table<O: Item, M: Machine<Out = O>>(
        &mut self,
        sheet: &Sheet<M>,
    ) -> Result<(), Trouble> {
        let mut next = buffer::<u16>(self.script.heap(), self.script.number())?;
        let mut outputs = buffer::<O>(self.script.heap(), self.script.number())?;
        push_answer(&mut self.text, &sheet.table(&mut next, &mut outputs))?;
        self.tell_items(&next)?;
        self.tell_items(&outputs)
    }

    fn tell_call<O: Item, M: Machine<Out = O>>(
        &mut self,
        sheet: &mut Sheet<M>,
    ) -> Result<(), Trouble> {
        match Call::from(self.script.number()) {
            Call::Round => Ok(push_answer(&mut self.text, &sheet.round())?),
            Call::Settle => Ok(push_answer(&mut self.text, &sheet.settle())?),
            Call::Pair => {
                let s = self.script.number();
                let t = self.script.number();
                Ok(push_answer(&mut self.text, &sheet.pair(s, t))?)
            }
            Call::Map => self.tell_map(sheet),
            Call::Word => self.tell_word(sheet),
            Call::Table => self.tell_table(sheet),
        }
    }

    /// A sheet, and a count of calls on it.
    fn tell_sheet<O: Item, M: Machine<Out = O> + Drop>(
        &mut self,
        machine: M,
    ) -> Result<(), Trouble> {
        let mut sheet = Sheet::open(machine);
        for _ in 0..self.script.number() {
            self.tell_call(&mut sheet)?;
        }
        Ok(())
    }

    /// A machine of any output kind, and its sheet.
    pub(crate) fn tell<O: Item, F: Fault + fmt::Display, M: Machine<Out = O, Fault = F> + Drop>(
        &mut self,
        machine: M,
    ) -> Result<(), Trouble> {
        self.tell_machine(&machine)?;
        self.tell_sheet(machine)
    }

    /// A machine with commands, which can also be written as a chain.
    pub(crate) fn tell_commands<
        F: Fault + fmt::Display,
        M: Machine<Out = Command, Fault = F> + Drop,
    >(&mut self, machine: M) -> Result<(), Trouble> {
        self.tell_writes(&machine)?;
        self.tell(machine)
    }
}
