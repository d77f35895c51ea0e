//! A machine with commands, written as a chain.
ghost use Rattle.std.specs.Prelude.{◌≡◌, length, take, IfOk};
ghost use Rattle.writing.specs.Longest.{LongestRuns};
ghost use Rattle.writing.specs.Runs.{Fewest};
ghost use Rattle.writing.specs.Writes.{write_number, Answered, after, Reopens};
ghost use Rattle.writing.specs.Written.{written};
ghost use Rattle.writing.specs.declared.writes.WriteRefusal.TheVariants.{Unsound};

use crate::plans::Plan;
use machine::{CheckRefusal, Command, Machine, check};

#[derive(Clone, Copy, PartialEq, Eq, Debug, Drop)]
pub enum WriteRefusal<F> {
    /// the machine is not sound, as its check says
    Unsound(CheckRefusal<F>),
    /// the buffer is too short
    Short { needed: usize },
}

impl<F> From<CheckRefusal<F>> for WriteRefusal<F> {
    ghost from_gives = { λ x y. y ≡ Unsound x };

    fn from(refusal: CheckRefusal<F>) -> WriteRefusal<F> {
        WriteRefusal::Unsound(refusal)
    }
}

impl<F> WriteRefusal<F> {
    pub fn number(&self) -> u8
        ensures { result ≡ write_number self.now }
    {
        match self {
            WriteRefusal::Unsound(refusal) => refusal.number(),
            WriteRefusal::Short { .. } => 8,
        }
    }
}

/// Writes a machine as a chain, and answers the count of bytes. Opened again, the chain has the machine's sizes, its
/// start and every cell. A refusal changes no byte.
pub fn write_chain<M: Machine<Out = Command>>(
    machine: &M,
    out: &mut [u8],
) -> Result<usize, WriteRefusal<M::Fault>>
    ensures answer { Answered (M.Machine.means machine.now) (length out.old) result }
    ensures buffer { out.new ≡ after result (written (M.Machine.means machine.now)) out.old }
    ensures again { IfOk result (λ b. Reopens (M.Machine.means machine.now) (take b out.new)) }
    ensures runs { IfOk result (λ b. LongestRuns (take b out.new)) }
{
    check(machine)?;
    let plan = Plan::of(machine);
    let needed = plan.length();
    if out.len() < needed {
        return Err(WriteRefusal::Short { needed });
    }
    plan.put(out);
    Ok(needed)
}

/// No other runs of inputs with equal cells, in input order, are fewer than the longest ones.
pub fn runs_are_fewest()
    ensures { Fewest }
{}
