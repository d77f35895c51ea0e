//! Settles machines of every form, from small ones to the panel's limits, and prints how many rounds and blocks each has.
//! With a number of repeats as its argument it adds the best time, in nanoseconds, of opening a sheet and settling it.
#![tactic(auto)]

ghost use Rattle.std.specs.Prelude.{◌≡◌, false, IfOk, Ok};
ghost use Rattle.sheet.specs.Replies.{settle_reply};
ghost use Rattle.sheet.specs.Stage.{stage_at};

use crate::machines::{Case, Measured};
use anyhow::anyhow;
use machine::Machine;
use sheet::{Settling, Sheet};
use std::time::Instant;
use std::{env, fmt};

mod machines;

#[derive(Clone, Copy)]
enum Form {
    Grid,
    Chain,
    Beside,
    Train,
    Keymap,
    Deep,
}

const FORMS: [Form; 6] = [
    Form::Grid,
    Form::Chain,
    Form::Beside,
    Form::Train,
    Form::Keymap,
    Form::Deep,
];

const CASES: [Case; 3] = [Case::Alike, Case::Apart, Case::Stairs];

/// States and inputs; of one row to the next one of them is fourfold.
const SIZES: [(u16, u16); 6] = [(2, 2), (8, 2), (32, 2), (128, 2), (128, 8), (128, 32)];

impl fmt::Display for Form {
    fn fmt<W: fmt::Write>(&self, f: &mut fmt::Formatter<W>) -> fmt::Result {
        f.pad(match self {
            Form::Grid => "grid",
            Form::Chain => "chain",
            Form::Beside => "beside",
            Form::Train => "train",
            Form::Keymap => "keymap",
            Form::Deep => "deep",
        })
    }
}

impl Form {
    // stays: handle and measured machine, here and below: of the one the heap and the clock are asked, and the other makes the machine
    /// Makes a machine of this form, which is not timed, and settles it.
    fn settled(self, rt: &HostRuntime, of: Measured) -> anyhow::Result<Settled> {
        let heap = rt.alloc();
        match self {
            Form::Grid => settle(rt, of.grid(heap)?),
            Form::Chain => settle(rt, of.chain(heap)?),
            Form::Beside => settle(rt, of.beside(heap)?),
            Form::Train => settle(rt, of.train(heap)?),
            Form::Keymap => settle(rt, of.keymap(heap)?),
            Form::Deep => settle(rt, of.deep(heap)?),
        }
    }
}

/// What settling answered, and how long opening and settling took.
#[derive(Clone, Copy)]
struct Settled {
    answer: Settling,
    nanos: u128,
}

fn settle<M: Machine + Drop>(rt: &HostRuntime, machine: M) -> anyhow::Result<Settled>
    ensures { IfOk result (λ x. Ok x.answer ≡ settle_reply (stage_at M.Out.key (M.Machine.means machine) 0 false)) }
{
    let start = Instant::now(rt)?;
    let mut sheet = Sheet::open(machine);
    let answer = sheet.settle().map_err(|_| anyhow!("not sound"))?;
    let nanos = start.elapsed(rt)?.as_nanos();
    Ok(Settled { answer, nanos })
}

/// Settles a machine and then again, as often as repeats say; keeps the best time.
fn best(rt: &HostRuntime, form: Form, of: Measured, repeats: u32) -> anyhow::Result<Settled> {
    let mut best = form.settled(rt, of)?;
    for _ in 0..repeats {
        let again = form.settled(rt, of)?;
        best.nanos = best.nanos.min(again.nanos);
    }
    Ok(best)
}

fn print_row(rt: &HostRuntime, form: Form, of: Measured, repeats: u32) -> anyhow::Result<()> {
    let Measured {
        case,
        states,
        inputs,
    } = of;
    let Settled { answer, nanos } = best(rt, form, of, repeats)?;
    let Settling { rounds, count } = answer;
    print!(rt; "{form:<6} {states:>6} {inputs:>6}  {case:<6} {rounds:>6} {count:>6}")?;
    if repeats > 0 {
        print!(rt; " {nanos:>12}")?;
    }
    println!(rt)?;
    Ok(())
}

/// How often each machine is settled again: the argument, or not at all. Without repeats no time is printed.
// stays: an `Option` would not tell apart what is done: an argument of 0 prints no time either, so `Some(0)` and `None` would be one case
fn repeats(rt: &HostRuntime) -> anyhow::Result<u32> {
    match env::args(rt)?.nth(1) {
        Some(word) => Ok(word.parse::<u32>()?),
        None => Ok(0),
    }
}

fn main(rt: HostRuntime) -> anyhow::Result<()> {
    let repeats = repeats(&rt)?;
    println!(rt; "form   states inputs  case   rounds blocks")?;
    for form in FORMS {
        for case in CASES {
            for (states, inputs) in SIZES {
                let of = Measured {
                    case,
                    states,
                    inputs,
                };
                print_row(&rt, form, of, repeats)?;
            }
        }
    }
    Ok(())
}
