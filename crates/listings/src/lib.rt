//! A chain's machine reduced and shown, in one of several views, of which the plain listing is the first.
#![tactic(auto)]

ghost use Rattle.std.specs.Prelude.{◌≡◌, ℕ, List, ◌++◌, is_ok, IfOk, string_bytes, OnOk};
ghost use Rattle.forms.specs.Chains.{chain_opening};
ghost use Rattle.forms.specs.Forms.{chain_of};
ghost use Rattle.listings.specs.Lists.{Lists, lists_in};
ghost use Rattle.listings.specs.Shown.{Shown, ShownMachine};

pub use crate::lines::Listing;
use forms::Chain;
use machine::Command;
use reductions::{Reduction, Unreduced, reduce};
use reports::Report;
use std::alloc::{AllocError, Global};

/// A way to show a reduced machine.
pub trait View {
    ghost shown: { Self → Lists → List ℕ };

    /// Adds what is shown of a reduction.
    fn push(&self, text: &mut String, reduction: &Reduction<Command>) -> Result<(), AllocError>
        ensures { OnOk result (string_bytes text.new ≡ string_bytes text.old ++ shown self.now (lists_in reduction.now)) };
}

// stays: as `Report::of_bytes`; with a function that takes what to do with the chain, both promises would need the closure's post
/// Opens the bytes as a chain, reduces its machine and shows it; a refusal is told in its place.
pub fn show<V: View>(heap: Global, bytes: Vec<u8>, view: &V) -> Result<Report, AllocError>
    ensures { IfOk result (λ x. Shown (V.View.shown view.now) (chain_opening bytes.items) (string_bytes x.text) (is_ok x.verdict)) }
{
    match Chain::open(bytes) {
        Ok(chain) => show_chain(heap, chain, view),
        Err(refusal) => Report::of_refusal(heap, refusal),
    }
}

fn show_chain<V: View>(heap: Global, chain: Chain, view: &V) -> Result<Report, AllocError>
    ensures { IfOk result (λ x. ShownMachine (V.View.shown view.now) (chain_of chain) (string_bytes x.text) (is_ok x.verdict)) }
{
    match reduce(heap, chain) {
        Ok(reduction) => {
            let mut text = String::new(heap);
            view.push(&mut text, &reduction)?;
            Ok(Report {
                text,
                verdict: Ok(()),
            })
        }
        Err(Unreduced::Unsound(refusal)) => Report::of_unsound(heap, &refusal),
        Err(Unreduced::NoMemory) => Err(AllocError),
    }
}

pub mod lines;
