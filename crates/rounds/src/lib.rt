//! One round over any numbering of a machine's states: which states join, the partition that they make, and the first
//! input that sets two states apart.
#![tactic(auto)]

ghost use Rattle.std.specs.Prelude.{◌≡◌, ℕ, ◌<◌, ◌≤◌, false, not, ◌&&◌, ◌==◌, slice_index, slice_index_or};
ghost use Rattle.mealy.specs.Below.{lowest};
ghost use Rattle.rounds.specs.Joining.{joins_at, joins, finer, some_below};
ghost use Rattle.rounds.specs.Rows.{Refines, FirstInput};

use machine::{Machine, Output};

/// A partition: the block number of each state, 0 past the states, and how many blocks there are.
#[derive(Clone, Copy)]
pub struct Refined {
    // stays: a row of 128, here and below, by which no read needs a fact about a length; an `ArrayVec<u8, 128>` or a slice needs it at each
    pub row: [u8; 128],
    pub parts: u8,
}

/// A machine, and a row that numbers its states.
#[derive_where(Clone, Copy)]
pub struct Numbering<'a, M> {
    pub machine: &'a M,
    pub row: &'a [u8; 128],
}

// stays: a `State` with `ghost few: { index < 128 }` would be made anew at each step of `(0..s)` and taken apart at each entry()
impl<'a, M: Machine> Numbering<'a, M> {
    /// Whether two states have one number.
    fn in_one_block(&self, a: u16, b: u16) -> bool
        requires { (a < 128) × (b < 128) }
        ensures { result ≡ (slice_index self.now.row.now a == slice_index self.now.row.now b) }
    {
        self.row[a as usize] == self.row[b as usize]
    }

    /// Whether two states have cells at an input, with outputs alike and next states of one number.
    fn joins_at(&self, s: u16, t: u16, i: u16) -> bool
        ensures { result ≡ joins_at M.Out.key (M.Machine.means self.now.machine.now) self.now.row.now s t i }
    {
        // stays: by `let (Ok(a), Ok(b)) = (.., ..) else` the row beside, apart, 128 x 32 takes 0.80 ms, and by two lets 0.46 ms
        let Ok(a) = self.machine.entry(s, i) else {
            return false;
        };
        let Ok(b) = self.machine.entry(t, i) else {
            return false;
        };
        a.output.alike(&b.output) && self.in_one_block(a.next, b.next)
    }

    /// The same at every input.
    fn joins_everywhere(&self, s: u16, t: u16) -> bool
        ensures { result ≡ joins M.Out.key (M.Machine.means self.now.machine.now) self.now.row.now s t }
    {
        // stays: by `(0..self.machine.inputs()).all(|i| self.joins_at(s, t, i))` the row train, stairs, 128 x 32 takes 3.2 ms, and so 2.2 ms
        for i in 0..self.machine.inputs() {
            if !self.joins_at(s, t, i) {
                return false;
            }
        }
        true
    }

    /// Whether t leads a block that s joins. The machine is asked only where t leads and has the number of s.
    fn joins_leader(&self, leads: &[bool; 128], t: u16, s: u16) -> bool
        requires { (t < 128) × (s < 128) }
        ensures { result ≡ (slice_index_or leads.now t false && finer M.Out.key (M.Machine.means self.now.machine.now) self.now.row.now t s) }
    {
        leads[t as usize] && self.in_one_block(t, s) && self.joins_everywhere(t, s)
    }

    /// The lowest of the leaders so far that s joins.
    fn leader_of(&self, leads: &[bool; 128], s: u16) -> Option<u16>
        requires { s < 128 }
        ensures { result ≡ some_below s (lowest s (λ t. slice_index_or leads.now t false && finer M.Out.key (M.Machine.means self.now.machine.now) self.now.row.now t s)) }
    {
        (0..s).find(|t| self.joins_leader(leads, *t, s))
    }

    /// The next partition. From the numbers of P j of a sound machine it makes those of P (j + 1).
    pub fn refine(&self) -> Refined
        ensures next { Refines M.Out.key (M.Machine.means self.now.machine.now) self.now.row.now result.row result.parts }
        ensures few { result.parts ≤ 128 }
    {
        let mut row = [0u8; 128];
        let mut leads = [false; 128];
        // stays: the loop itself needs the number of the next block, which a count of the leaders behind it would not give
        let mut begun: u8 = 0;
        for s in 0..self.machine.states() {
            match self.leader_of(&leads, s) {
                Some(t) => row[s as usize] = row[t as usize],
                None => {
                    row[s as usize] = begun;
                    leads[s as usize] = true;
                    begun += 1;
                }
            }
        }
        Refined { row, parts: begun }
    }

    /// The first input that sets two states apart by the row.
    pub fn first_input(&self, s: u16, t: u16) -> Option<u16>
        ensures { FirstInput M.Out.key (M.Machine.means self.now.machine.now) self.now.row.now s t result }
    {
        (0..self.machine.inputs()).find(|i| !self.joins_at(s, t, *i))
    }
}
