//! A chain in normal form: written anew from the machine that it is.
ghost use Rattle.std.specs.Prelude.{◌≡◌, replicate, IfOk, vec_items, vec_len};
ghost use Rattle.forms.specs.Chains.{chain_opening};
ghost use Rattle.forms.specs.Forms.{chain_of};
ghost use Rattle.writing.specs.Writes.{Reopens};
ghost use Rattle.writing.specs.Longest.{LongestRuns};
ghost use Rattle.writing.specs.Normal.{Rewritten, Normalised, SameChain, OneForm};
ghost use Rattle.writing.specs.declared.normal.NormalRefusal.TheVariants.{Unopened, Unsound, NoMemory};

use crate::plans::Plan;
use forms::{Chain, OpenRefusal};
use machine::{CheckRefusal, StoredFault, check};
use std::alloc::{AllocError, Global};

#[derive(Clone, Copy, PartialEq, Eq, Debug)]
pub enum NormalRefusal {
    /// the bytes are no chain, or its machine is not sound
    Unopened(OpenRefusal),
    Unsound(CheckRefusal<StoredFault>),
    NoMemory,
}

impl From<OpenRefusal> for NormalRefusal {
    ghost from_gives = { λ x y. y ≡ Unopened x };

    fn from(refusal: OpenRefusal) -> NormalRefusal {
        NormalRefusal::Unopened(refusal)
    }
}

impl From<CheckRefusal<StoredFault>> for NormalRefusal {
    ghost from_gives = { λ x y. y ≡ Unsound x };

    fn from(refusal: CheckRefusal<StoredFault>) -> NormalRefusal {
        NormalRefusal::Unsound(refusal)
    }
}

impl From<AllocError> for NormalRefusal {
    ghost from_gives = { λ x y. y ≡ NoMemory };

    fn from(_: AllocError) -> NormalRefusal {
        NormalRefusal::NoMemory
    }
}

/// Opens bytes as a chain and writes it anew. The new chain has the same sizes, start and cells, and one record for each
/// longest run.
pub fn normalised(heap: Global, bytes: Vec<u8>) -> Result<Vec<u8>, NormalRefusal>
    ensures answer { Normalised vec_items (chain_opening bytes.items) result }
    ensures again { IfOk result (λ v. SameChain bytes.items v.items) }
    ensures runs { IfOk result (λ v. LongestRuns v.items) }
{
    rewritten(heap, &Chain::open(bytes)?)
}

fn rewritten(heap: Global, chain: &Chain) -> Result<Vec<u8>, NormalRefusal>
    ensures answer { Rewritten vec_items (chain_of chain.now) result }
    ensures again { IfOk result (λ v. Reopens (chain_of chain.now) v.items) }
    ensures runs { IfOk result (λ v. LongestRuns v.items) }
{
    check(chain)?;
    let plan = Plan::of(chain);
    let mut out = zeros(heap, plan.length())?;
    plan.put(&mut out);
    Ok(out)
}

fn zeros(heap: Global, length: usize) -> Result<Vec<u8>, AllocError>
    ensures { IfOk result (λ v. (v.items ≡ replicate length 0) × (vec_len v ≡ length)) }
{
    vec![in heap; 0; length]
}

/// Chains that are the same machine have the same normal form.
pub fn one_form()
    ensures { OneForm }
{}
