//! What programs say of a chain that they open and check.
#![tactic(auto)]

ghost use Rattle.std.specs.Prelude.{◌≡◌, false, is_ok, Some, IfOk, codes, string_bytes};
ghost use Rattle.forms.specs.Chains.{chain_opening};
ghost use Rattle.forms.specs.Forms.{chain_of};
ghost use Rattle.reports.specs.Reports.{unsound_text, Refused as RefusedOpening, Unsound, Described, Reported};

use forms::{Chain, OpenRefusal};
use machine::{CheckRefusal, Machine, StoredFault, check};
use std::alloc::{AllocError, Global};
use std::error::Error;
use std::fmt;

/// The machine was not accepted; the report's text says why.
#[derive(Clone, Copy, PartialEq, Eq, Debug)]
pub struct Refused;

impl fmt::Display for Refused {
    ghost output = { λ _. Some (codes "refused") };

    fn fmt<W: fmt::Write>(&self, f: &mut fmt::Formatter<W>) -> fmt::Result {
        write!(f, "refused")
    }
}

impl Error for Refused {}

/// The lines to print, and how a program that printed them ends.
#[derive(Drop)]
pub struct Report {
    pub text: String,
    pub verdict: Result<(), Refused>,
}

impl Report {
    // stays: as listings' `show`; with `opened(bytes, impl FnOnce(Chain) -> Result<Report, AllocError>)` both promises would need the closure's post
    /// Opens the bytes as a chain and checks it.
    pub fn of_bytes(heap: Global, bytes: Vec<u8>) -> Result<Report, AllocError>
        ensures { IfOk result (λ x. Reported (chain_opening bytes.items) (string_bytes x.text) (is_ok x.verdict)) }
    {
        match Chain::open(bytes) {
            Ok(chain) => Report::of_chain(heap, &chain),
            Err(refusal) => Report::of_refusal(heap, refusal),
        }
    }

    /// An opening that was refused.
    pub fn of_refusal(heap: Global, refusal: OpenRefusal) -> Result<Report, AllocError>
        ensures { IfOk result (λ x. RefusedOpening refusal (string_bytes x.text) (is_ok x.verdict)) }
    {
        Ok(Report::refused(format!(in heap; "{refusal}\n")?))
    }

    /// A machine that the check refused.
    pub fn of_unsound(
        heap: Global,
        refusal: &CheckRefusal<StoredFault>,
    ) -> Result<Report, AllocError>
        ensures { IfOk result (λ x. Unsound refusal.now (string_bytes x.text) (is_ok x.verdict)) }
    {
        Ok(Report::refused(unsound_text(heap, refusal)?))
    }

    fn refused(text: String) -> Report
        ensures text { result.text ≡ text }
        ensures verdict { is_ok result.verdict ≡ false }
    {
        Report {
            text,
            verdict: Err(Refused),
        }
    }

    fn of_chain(heap: Global, chain: &Chain) -> Result<Report, AllocError>
        ensures { IfOk result (λ x. Described (chain_of chain.now) (string_bytes x.text) (is_ok x.verdict)) }
    {
        match check(chain) {
            Ok(_) => {
                // stays: this line here, in listings, the bridge and stacks: a type with a Display for it needs a definition, a promise and an edit
                let states = chain.states();
                let inputs = chain.inputs();
                let start = chain.start();
                Ok(Report {
                    text: format!(in heap; "states {states} inputs {inputs} start {start}\n")?,
                    verdict: Ok(()),
                })
            }
            Err(refusal) => Report::of_unsound(heap, &refusal),
        }
    }
}

/// A check's refusal. An opened chain is never a misfit, but the text covers every answer.
fn unsound_text(heap: Global, refusal: &CheckRefusal<StoredFault>) -> Result<String, AllocError>
    ensures { IfOk result (λ x. string_bytes x ≡ unsound_text refusal.now) }
{
    let number = refusal.number();
    match refusal {
        CheckRefusal::Misfit(_) => format!(in heap; "refused {number}\n"),
        CheckRefusal::Hole {
            state,
            input,
            fault,
        } => {
            let cause = fault.cause.number();
            let record = fault.place;
            format!(in heap;
                "refused {number} state {state} input {input} cause {cause} record {record}\n"
            )
        }
    }
}
