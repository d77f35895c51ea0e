//! Runs: any list of calls on one sheet, each handed to a recorder, and the law of what was recorded.
#![tactic(auto)]

ghost use Rattle.std.specs.Prelude.{◌≡◌, false, List};
ghost use Rattle.sheet.specs.Stage.{stage_at};
ghost use Rattle.sheet.specs.Standing.{stage_of};
ghost use Rattle.runs.specs.Entries.{Entry, entry_of, buffers, Noted, stage_by};
ghost use Rattle.runs.specs.Right.{Right};
ghost use Rattle.runs.specs.Runs.{Played};

pub use crate::logs::{Line, Log};
use machine::{Machine, Output};
use sheet::{Pair, Refusal, Round, Sheet, Table};

/// A call on a sheet; a pair and a word are of two states.
#[derive(Clone, Copy, PartialEq, Eq, Debug)]
pub enum Call {
    Round,
    Pair(u16, u16),
    Map,
    Word(u16, u16),
    Table,
}

/// What a call was answered, by its kind.
#[derive(Clone, Copy)]
pub enum Answer {
    Round(Result<Round, Refusal>),
    Pair(Result<Pair, Refusal>),
    Map(Result<(), Refusal>),
    Word(Result<usize, Refusal>),
    Table(Result<Table, Refusal>),
}

/// What keeps a log: each call with its answer, and the three buffers as it left them. It may stop, and has then noted nothing.
pub trait Recorder<O> {
    type Stop: Drop;

    ghost log: { Self → List (Entry O) };

    fn note(
        &mut self,
        call: Call,
        answer: Answer,
        numbers: &[u16],
        next: &[u16],
        outputs: &[O],
    ) -> Result<(), Self::Stop>
        ensures { Noted result (log self.old) (log self.new) (entry_of call answer numbers.now next.now outputs.now) };
}

/// One call, with the caller's buffers.
fn ask<M: Machine>(
    sheet: &mut Sheet<M>,
    call: Call,
    numbers: &mut [u16],
    next: &mut [u16],
    outputs: &mut [M::Out],
) -> Answer
    ensures same { sheet.new.machine ≡ sheet.old.machine }
    ensures stage { stage_of sheet.new ≡ stage_by result (stage_of sheet.old) }
    ensures right { Right M.Out.Output.key (M.Machine.means sheet.old.machine).entry (stage_of sheet.old) call (buffers numbers.old next.old outputs.old) result (buffers numbers.new next.new outputs.new) }
{
    match call {
        Call::Round => Answer::Round(sheet.round()),
        Call::Pair(s, t) => Answer::Pair(sheet.pair(s, t)),
        Call::Map => Answer::Map(sheet.map(numbers)),
        Call::Word(s, t) => Answer::Word(sheet.word(s, t, numbers)),
        Call::Table => Answer::Table(sheet.table(next, outputs)),
    }
}

// stays: three buffers: in a struct `numbers.old` is `to.old.numbers.now`, and each has a clause `to.new.numbers.ghost_name ≡ ..` more
/// Opens a machine and plays the calls one after the other, each noted with the buffers as it left them, until the recorder stops.
pub fn play<M: Machine + Drop, R: Recorder<M::Out>>(
    machine: M,
    calls: &[Call],
    numbers: &mut [u16],
    next: &mut [u16],
    outputs: &mut [M::Out],
    recorder: &mut R,
) -> Result<(), R::Stop>
    ensures { Played M.Out.Output.key (M.Machine.means machine).entry (stage_at M.Out.Output.key (M.Machine.means machine) 0 false) (buffers numbers.old next.old outputs.old) calls.now (R.Recorder.log recorder.old) (R.Recorder.log recorder.new) result (buffers numbers.new next.new outputs.new) }
{
    let mut sheet = Sheet::open(machine);
    for call in calls {
        let answer = ask(&mut sheet, *call, numbers, next, outputs);
        recorder.note(*call, answer, numbers, next, outputs)?;
    }
    Ok(())
}

pub mod logs;
mod shown;
