//! What a settled sheet hands out, call by call.
ghost use Rattle.std.specs.Prelude.{◌≡◌, ◌+◌, ◌<◌, true, false, ◌==◌, ◌++◌, map, length, is_ok, IfOk, Some, OnOk, slice_index};
ghost use Rattle.std.specs.List.{position};
ghost use Rattle.mealy.specs.FirstWord.{word_of};
ghost use Rattle.mealy.specs.Partitions.{blocks, block_count};
ghost use Rattle.machine.specs.Theory.{mealy_of, sound_by};
ghost use Rattle.sheet.specs.Replies.{splits_in_all, word_reply};
ghost use Rattle.sheet.specs.Standing.{stage_of};
ghost use Rattle.sheet.specs.Tables.{output_of};
ghost use Rattle.reductions.specs.Aparts.{apart_of, aparts_above, aparts_of};
ghost use Rattle.reductions.specs.Reductions.{HandedTable, IsReduction, leaders_of};

use crate::{Apart, Reduction};
use machine::{MOST_STATES, Machine, Output};
use sheet::{Settling, Sheet, Table};
use std::alloc::{AllocError, Global};

/// The sheet of a sound machine once it has settled, how many rounds that took, and what a reduction has of the machine itself.
#[derive(Drop)]
pub(crate) struct Done<M: Machine> {
    sheet: Sheet<M>,
    settling: Settling,
    states: u16,
    inputs: u16,
    start: u16,
    /// some output, which a table writes over everywhere
    filler: M::Out,
    ghost sound: { sound_by (M.Machine.means sheet.machine) ≡ true },
    ghost settled: { sheet.settled ≡ true },
    ghost last: { sheet.rounds ≡ splits_in_all (mealy_of M.Out.key (M.Machine.means sheet.machine)) },
    ghost taken: { settling.rounds ≡ sheet.rounds + 1 },
    ghost classes: { settling.count ≡ block_count (mealy_of M.Out.key (M.Machine.means sheet.machine)) sheet.rounds },
    ghost same_states: { states ≡ (M.Machine.means sheet.machine).states },
    ghost same_inputs: { inputs ≡ (M.Machine.means sheet.machine).inputs },
    ghost same_start: { start ≡ (M.Machine.means sheet.machine).start },
}

impl<M: Machine> Done<M> {
    /// Settles the sheet of a sound machine.
    pub(crate) fn of(machine: M) -> Done<M>
        requires sound { sound_by (M.Machine.means machine) ≡ true }
        ensures same { result.sheet.machine ≡ machine }
    {
        let states = machine.states();
        let inputs = machine.inputs();
        let start = machine.start();
        let filler = first_output(&machine);
        let mut sheet = Sheet::open(machine);
        let Ok(settling) = sheet.settle() else {
            unreachable()
        };
        Done {
            sheet,
            settling,
            states,
            inputs,
            start,
            filler,
        }
    }

    /// Everything that the sheet hands out, in lists.
    pub(crate) fn hand_out(&self, heap: Global) -> Result<Reduction<M::Out>, AllocError>
        ensures { IfOk result (IsReduction M.Out.Output.key (M.Machine.means self.now.sheet.machine)) }
    {
        let map = self.map(heap)?;
        let handed = self.table(heap)?;
        let leaders = self.leaders(heap, &map)?;
        let led = Led {
            done: self,
            leaders: &leaders,
        };
        let aparts = led.aparts(heap)?;
        Ok(Reduction {
            states: self.states,
            inputs: self.inputs,
            start: self.start,
            settling: self.settling,
            table: handed.table,
            map,
            next: handed.next,
            outputs: handed.outputs,
            aparts,
        })
    }

    /// The class of each state.
    fn map(&self, heap: Global) -> Result<Vec<u16>, AllocError>
        ensures { IfOk result (λ v. v.items ≡ blocks (stage_of self.now.sheet).machine self.now.sheet.rounds) }
    {
        let mut numbers = vec![in heap; 0u16; self.states as usize]?;
        let Ok(()) = self.sheet.map(&mut numbers) else {
            unreachable()
        };
        Ok(numbers)
    }

    /// The table.
    fn table(&self, heap: Global) -> Result<Handed<M::Out>, AllocError>
        ensures { IfOk result (λ x. HandedTable M.Out.Output.key (M.Machine.means self.now.sheet.machine).entry (stage_of self.now.sheet) x.table x.next.items x.outputs.items) }
    {
        let cells = self.settling.count as usize * self.inputs as usize;
        let mut next = vec![in heap; 0u16; cells]?;
        let mut outputs = vec![in heap; self.filler; cells]?;
        let Ok(table) = self.sheet.table(&mut next, &mut outputs) else {
            unreachable()
        };
        Ok(Handed {
            table,
            next,
            outputs,
        })
    }

    /// The lowest state of each class, by the class of each state.
    fn leaders(&self, heap: Global, map: &[u16]) -> Result<Vec<u16>, AllocError>
        requires map { map.now ≡ blocks (stage_of self.now.sheet).machine self.now.sheet.rounds }
        ensures { IfOk result (λ v. v.items ≡ leaders_of (stage_of self.now.sheet)) }
    {
        let mut leaders = Vec::new(heap);
        for class in 0..self.settling.count {
            let Some(leader) = first_in(map, class) else {
                unreachable()
            };
            leaders.push(leader as u16)?;
        }
        Ok(leaders)
    }

    /// The word of two states that the sheet tells apart.
    fn word(&self, heap: Global, s: u16, t: u16) -> Result<Vec<u16>, AllocError>
        requires told { is_ok (word_reply (stage_of self.now.sheet) s t 128) ≡ true }
        ensures { IfOk result (λ v. v.items ≡ word_of (stage_of self.now.sheet).machine self.now.sheet.rounds s t) }
    {
        let mut word = vec![in heap; 0u16; MOST_STATES as usize]?;
        let Ok(length) = self.sheet.word(s, t, &mut word) else {
            unreachable()
        };
        word.truncate(length);
        Ok(word)
    }
}

/// A settled sheet, and the lowest state of each of its classes.
#[derive(Drop)]
struct Led<'a, M: Machine> {
    done: &'a Done<M>,
    leaders: &'a [u16],
    ghost lowest: { leaders.now ≡ leaders_of (stage_of done.now.sheet) },
}

impl<'a, M: Machine> Led<'a, M> {
    /// Adds what tells a class from each class above it, by the lowest state of the class.
    fn push_aparts(
        &self,
        heap: Global,
        class: usize,
        leader: u16,
        aparts: &mut Vec<Apart>,
    ) -> Result<(), AllocError>
        requires within { class < length self.now.leaders.now }
        requires leads { leader ≡ slice_index self.now.leaders.now class }
        ensures { OnOk result (map apart_of aparts.new.items ≡ map apart_of aparts.old.items ++ aparts_above (stage_of self.now.done.now.sheet).machine self.now.done.now.sheet.rounds self.now.leaders.now class) }
    {
        for (above, other) in self.leaders[class + 1..].iter().enumerate() {
            let word = self.done.word(heap, leader, *other)?;
            aparts.push(Apart {
                first: class as u16,
                second: (class + 1 + above) as u16,
                word,
            })?;
        }
        Ok(())
    }

    /// What tells each two classes apart, rising.
    fn aparts(&self, heap: Global) -> Result<Vec<Apart>, AllocError>
        ensures { IfOk result (λ v. map apart_of v.items ≡ aparts_of (stage_of self.now.done.now.sheet).machine self.now.done.now.sheet.rounds self.now.leaders.now) }
    {
        let mut aparts = Vec::new(heap);
        for (class, leader) in self.leaders.iter().enumerate() {
            self.push_aparts(heap, class, *leader, &mut aparts)?;
        }
        Ok(aparts)
    }
}

/// A table in lists of its size.
// stays: two lists for a cell's next state and output, since they are the two buffers that the sheet's call `table` fills
#[derive(Drop)]
struct Handed<O> {
    table: Table,
    next: Vec<u16>,
    outputs: Vec<O>,
}

/// Some output of a sound machine.
fn first_output<M: Machine>(machine: &M) -> M::Out
    requires sound { sound_by (M.Machine.means machine.now) ≡ true }
    ensures { output_of ((M.Machine.means machine.now).entry 0 0) ≡ Some result }
{
    let Ok(cell) = machine.entry(0, 0) else {
        unreachable()
    };
    cell.output
}

/// The first state in a class, by the class of each state.
fn first_in(map: &[u16], class: u16) -> Option<usize>
    ensures { result ≡ position (λ c. c == class) map.now }
{
    map.iter().position(|c| *c == class)
}
