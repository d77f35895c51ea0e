//! The calls of a sheet.
ghost use Rattle.std.specs.Prelude.{◌≡◌, ◌<◌, true, false, length, IfSome, Ok, Decides};
ghost use Rattle.machine.specs.Meaning.{Sound};
ghost use Rattle.machine.specs.Theory.{sound_by};
ghost use Rattle.sheet.specs.Stage.{stage_at, stage_after, stage_settled, Unchanged};
ghost use Rattle.sheet.specs.Standing.{stage_of};
ghost use Rattle.sheet.specs.Replies.{when_sound, when_open, when_states, round_reply, settle_reply, parted_in, told, pair_reply, map_reply, map_after, word_reply, word_after};
ghost use Rattle.sheet.specs.Tables.{table_reply, next_after, OutputsAfter};
ghost use Rattle.sheet.specs.Means.{RoundMeans, SettleMeans, PairMeans, MapMeans, WordMeans, TableMeans};

use crate::steps::{blank, copy_front, fill, first_apart};
use crate::{Pair, Refusal, Round, Settling, Sheet, Table, TableBuffer};
use machine::{Machine, Output, check};
use rounds::Numbering;

/// What is told of two states by the round in which they part, if they have, and by whether the sheet is settled.
fn tell(found: Option<usize>, settled: bool) -> Pair
    requires { IfSome found (λ j. j < 128) }
    ensures { result ≡ told found settled }
{
    match found {
        Some(j) => Pair::Apart(j as u16),
        None if settled => Pair::Equivalent,
        None => Pair::Together,
    }
}

impl<M: Machine> Sheet<M> {
    /// A sheet of one block, whatever the machine.
    pub fn open(machine: M) -> Sheet<M>
        ensures same { result.machine ≡ machine }
        ensures stage { stage_of result ≡ stage_at M.Out.key (M.Machine.means machine) 0 false }
        ensures sound { Decides (sound_by (M.Machine.means machine)) (Sound (M.Machine.means machine)) }
    {
        let sound = check(&machine).is_ok();
        Sheet {
            machine,
            sound,
            settled: false,
            rounds: 0,
            parts: 1,
            rows: blank(),
        }
    }

    /// Refuses every call on an unsound machine.
    fn heard(&self) -> Result<(), Refusal>
        ensures { result ≡ when_sound (stage_of self.now) (Ok tt) }
    {
        if !self.sound {
            return Err(Refusal::Unsound);
        }
        Ok(())
    }

    /// Refuses a round on a settled sheet besides.
    fn still_open(&self) -> Result<(), Refusal>
        ensures { result ≡ when_sound (stage_of self.now) (when_open (stage_of self.now) (Ok tt)) }
    {
        self.heard()?;
        if self.settled {
            return Err(Refusal::AlreadySettled);
        }
        Ok(())
    }

    /// The round in which two states part, of those so far. Refuses numbers that are not states besides.
    fn parted(&self, s: u16, t: u16) -> Result<Option<usize>, Refusal>
        ensures { result ≡ when_sound (stage_of self.now) (when_states (stage_of self.now) s t (Ok (parted_in (stage_of self.now) s t))) }
    {
        self.heard()?;
        let n = self.machine.states();
        if s >= n || t >= n {
            return Err(Refusal::NoSuchState);
        }
        Ok(first_apart(&self.rows[..=self.rounds], s as usize, t as usize))
    }

    /// Takes the next partition where it has more blocks than the last one, and settles the sheet where it has not.
    fn advance(&mut self) -> Round
        requires { (sound_by (M.Machine.means self.old.machine) ≡ true) × (self.old.settled ≡ false) }
        ensures same { self.new.machine ≡ self.old.machine }
        ensures stage { stage_of self.new ≡ stage_after (Ok result) (stage_of self.old) }
        ensures answer { Ok result ≡ round_reply (stage_of self.old) }
    {
        // stays: a copy, since an element of an array in a struct with a ghost field is not lent from behind a `&mut`
        let last = self.rows[self.rounds];
        let before = Numbering {
            machine: &self.machine,
            row: &last,
        };
        let refined = before.refine();
        if refined.parts <= self.parts {
            self.settled = true;
            return Round::Settled {
                count: self.parts as u16,
            };
        }
        self.rounds += 1;
        let row = refined.row;
        self.rows[self.rounds] = row;
        self.parts = refined.parts;
        Round::Split {
            count: self.parts as u16,
        }
    }

    /// One round: two states stay in one block where their outputs are alike at every input and their next states were in one.
    pub fn round(&mut self) -> Result<Round, Refusal>
        ensures same { self.new.machine ≡ self.old.machine }
        ensures refused { Unchanged result self.old self.new }
        ensures stage { stage_of self.new ≡ stage_after result (stage_of self.old) }
        ensures answer { result ≡ round_reply (stage_of self.old) }
        ensures means { RoundMeans (stage_of self.old) result }
    {
        // a refused round changes nothing
        self.still_open()?;
        Ok(self.advance())
    }

    /// Rounds until one settles: at most as many as there are states.
    pub fn settle(&mut self) -> Result<Settling, Refusal>
        ensures same { self.new.machine ≡ self.old.machine }
        ensures refused { Unchanged result self.old self.new }
        ensures stage { stage_of self.new ≡ stage_settled result (stage_of self.old) }
        ensures answer { result ≡ settle_reply (stage_of self.old) }
        ensures means { SettleMeans (stage_of self.old) result }
    {
        self.still_open()?;
        let before = self.rounds;
        'rounds: while let Round::Split { .. } = self.advance() {}
        Ok(Settling {
            rounds: (self.rounds - before + 1) as u16,
            count: self.parts as u16,
        })
    }

    /// Whether two states are told apart so far, and by how many inputs.
    pub fn pair(&self, s: u16, t: u16) -> Result<Pair, Refusal>
        ensures answer { result ≡ pair_reply (stage_of self.now) s t }
        ensures means { PairMeans (stage_of self.now) s t result }
    {
        Ok(tell(self.parted(s, t)?, self.settled))
    }

    /// Writes the block number of each state.
    pub fn map(&self, out: &mut [u16]) -> Result<(), Refusal>
        ensures answer { result ≡ map_reply (stage_of self.now) (length out.old) }
        ensures buffer { out.new ≡ map_after (stage_of self.now) out.old }
        ensures means { MapMeans (stage_of self.now) result out.new }
    {
        self.heard()?;
        let n = self.machine.states() as usize;
        if out.len() < n {
            return Err(Refusal::Short { needed: n });
        }
        copy_front(&self.rows[self.rounds], n, out);
        Ok(())
    }

    /// Writes the first of the shortest words that tell two states apart.
    pub fn word(&self, s: u16, t: u16, out: &mut [u16]) -> Result<usize, Refusal>
        ensures answer { result ≡ word_reply (stage_of self.now) s t (length out.old) }
        ensures buffer { out.new ≡ word_after (stage_of self.now) s t out.old }
        ensures means { WordMeans (stage_of self.now) s t result out.new }
    {
        let found = self.parted(s, t)?;
        let j = found.ok_or(Refusal::NotApart)?;
        if out.len() < j {
            return Err(Refusal::Short { needed: j });
        }
        self.spell(j, s, t, out);
        Ok(j)
    }

    // stays: two buffers, not one of cells: a refusal tells which of the two is too short
    /// Writes the smallest equivalent machine: next classes and outputs, class c at input i at place c × inputs + i.
    pub fn table(&self, next: &mut [u16], outputs: &mut [M::Out]) -> Result<Table, Refusal>
        ensures answer { result ≡ table_reply (stage_of self.now) (length next.old) (length outputs.old) }
        ensures next { next.new ≡ next_after (stage_of self.now) (length outputs.old) next.old }
        ensures outputs { OutputsAfter (M.Machine.means self.now.machine).entry (stage_of self.now) result outputs.old outputs.new }
        ensures means { TableMeans M.Out.Output.key (stage_of self.now) result next.new outputs.new }
    {
        self.heard()?;
        if !self.settled {
            return Err(Refusal::Unsettled);
        }
        let total = self.parts as usize * self.machine.inputs() as usize;
        if next.len() < total {
            return Err(Refusal::ShortTable(TableBuffer::Next));
        }
        if outputs.len() < total {
            return Err(Refusal::ShortTable(TableBuffer::Outputs));
        }
        let row = &self.rows[self.rounds];
        fill(&self.machine, row, total, next, outputs);
        let start = self.machine.start();
        Ok(Table {
            classes: self.parts as u16,
            start: row[start as usize] as u16,
        })
    }
}
