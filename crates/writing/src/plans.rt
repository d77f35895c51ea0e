//! What must be known of a chain before its first number is written.
ghost use Rattle.std.specs.Prelude.{◌≡◌, ◌+◌, ◌*◌, ◌≤◌, ◌++◌, length, drop};
ghost use Rattle.writing.specs.Bytes.{puts};
ghost use Rattle.writing.specs.Written.{all_heads, all_records, all_rows, written, bytes_needed};

use crate::bytes::put_all;
use crate::rows::Row;
use arrayvec::ArrayVec;
use machine::{Command, Machine};

/// A machine with each state's first record, and how many records there are.
#[derive(Drop)]
pub(crate) struct Plan<'a, M: Machine<Out = Command>> {
    machine: &'a M,
    heads: ArrayVec<u16, 128>,
    records: u16,
    ghost heads_are: { heads.items ≡ all_heads (M.Machine.means machine.now) },
    ghost count: { records ≡ all_records (M.Machine.means machine.now) },
}

impl<'a, M: Machine<Out = Command>> Plan<'a, M> {
    pub(crate) fn of(machine: &'a M) -> Self
        ensures { result.machine.now ≡ machine.now }
    {
        let mut heads = ArrayVec::new();
        let mut records = 0;
        let mut row = Row::default();
        for state in 0..machine.states() {
            // records count from 1, since 0 is no record
            heads.push(records + 1);
            row.read(machine, state);
            records += row.count_runs();
        }
        Plan {
            machine,
            heads,
            records,
        }
    }

    /// How many bytes the chain takes.
    pub(crate) fn length(&self) -> usize
        ensures { result ≡ bytes_needed (M.Machine.means self.now.machine.now) }
    {
        2 * (4 + self.machine.states() as usize + 5 * self.records as usize)
    }

    /// Writes the records of all states.
    fn put_rows(&self, out: &mut [u8])
        requires { bytes_needed (M.Machine.means self.now.machine.now) ≤ length out.old }
        ensures { out.new ≡ puts out.old (4 + (M.Machine.means self.now.machine.now).states)
            (all_rows (M.Machine.means self.now.machine.now)) }
    {
        let states = self.machine.states();
        let mut row = Row::default();
        for (state, head) in self.heads.iter().enumerate() {
            row.read(self.machine, state as u16);
            row.put(out, states, *head);
        }
    }

    /// Writes the whole chain where there is room for it.
    pub(crate) fn put(&self, out: &mut [u8])
        requires { bytes_needed (M.Machine.means self.now.machine.now) ≤ length out.old }
        ensures { out.new ≡ written (M.Machine.means self.now.machine.now)
            ++ drop (bytes_needed (M.Machine.means self.now.machine.now)) out.old }
    {
        let front = [
            self.machine.states(),
            self.machine.inputs(),
            self.machine.start(),
            self.records,
        ];
        put_all(out, 0, &front);
        put_all(out, 4, &self.heads);
        self.put_rows(out);
    }
}
