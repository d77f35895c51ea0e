//! Builds piles of machines, checks each, and prints what the check says.
#![tactic(auto)]

use forms::grids::BLANK;
use forms::{Grid, OpenRefusal, Ring};
use layers::{Beside, Keymap, Train};
use machine::{Fault, Machine, WheelMove, check};
use std::alloc::{AllocFailed, Global};
use std::{fmt, io};

// stays: anyhow would print other words than `Error: Open(Size)`; thiserror wants a text of each variant, and `Memory(AllocError)` would print so
/// What can go wrong on the way: a part that does not open, no memory, or a broken output.
#[derive(Debug, Drop)]
enum Trouble {
    Open(OpenRefusal),
    Memory,
    Output(io::Error),
}

impl From<OpenRefusal> for Trouble {
    fn from(refusal: OpenRefusal) -> Trouble {
        Trouble::Open(refusal)
    }
}

impl<T: Drop> From<AllocFailed<T>> for Trouble {
    fn from(_refused: AllocFailed<T>) -> Trouble {
        Trouble::Memory
    }
}

impl From<io::Error> for Trouble {
    fn from(error: io::Error) -> Trouble {
        Trouble::Output(error)
    }
}

/// A line for a pile: its sizes if it is sound, or the refusal with the fault's words, side by side down to its cell.
fn report<F: Fault + fmt::Display, M: Machine<Fault = F>>(
    rt: &impl Print,
    name: &str,
    pile: &M,
) -> io::Result<()> {
    match check(pile) {
        Ok(()) => {
            // stays: the line that reports has, too; a type with a Display for it would need a definition, a promise and an edit of its own
            let states = pile.states();
            let inputs = pile.inputs();
            let start = pile.start();
            println!(rt; "{name}: sound, states {states} inputs {inputs} start {start}")
        }
        Err(refusal) => println!(rt; "{name}: {refusal}"),
    }
}

/// Two states and two keys, of which one brightens and one darkens; the last next state is given.
fn wheels(heap: Global, last: u16) -> Result<Grid<WheelMove>, Trouble> {
    let up = WheelMove {
        lift: 0,
        gamma: 5,
        gain: 20,
    };
    let down = WheelMove {
        lift: 0,
        gamma: -5,
        gain: -20,
    };
    let next = vec![in heap; 1, 0, 1, last]?;
    let outputs = vec![in heap; up, down, up, down]?;
    Ok(Grid::open(2, 2, 0, next, outputs)?)
}

fn sound_piles(rt: &HostRuntime) -> Result<(), Trouble> {
    let rings = Train::new(Ring::open(3)?, Ring::open(2)?);
    report(
        rt,
        "keys 0 1 1 over a train of rings 3 and 2",
        &Keymap::new(rings, &[0, 1, 1]),
    )?;
    let grids = Beside::new(wheels(rt.alloc(), 0)?, wheels(rt.alloc(), 0)?);
    report(rt, "two wheel grids beside each other", &grids)?;
    let full = Beside::new(Ring::open(64)?, Ring::open(64)?);
    report(rt, "rings 64 and 64 beside each other", &full)?;
    Ok(())
}

fn piles_with_holes(rt: &HostRuntime) -> Result<(), Trouble> {
    let past = Keymap::new(Ring::open(3)?, &[0, 0, 3]);
    report(rt, "keys 0 0 3 over a ring 3", &past)?;
    let blank = Beside::new(wheels(rt.alloc(), 0)?, wheels(rt.alloc(), BLANK)?);
    report(rt, "a wheel grid with a blank beside a whole one", &blank)?;
    let lower = Keymap::new(Ring::open(3)?, &[0, 0, 3]);
    let deep = Beside::new(Train::new(lower, Ring::open(2)?), Ring::open(5)?);
    report(rt, "keys 0 0 3 at the bottom of three layers", &deep)?;
    Ok(())
}

fn misfits(rt: &HostRuntime) -> Result<(), Trouble> {
    let many = Beside::new(Ring::open(64)?, Ring::open(65)?);
    report(rt, "rings 64 and 65 beside each other", &many)?;
    let keys = Keymap::new(Ring::open(4)?, &[0, 1]);
    report(
        rt,
        "a ring beside two keys over a ring",
        &Beside::new(Ring::open(4)?, keys),
    )?;
    let pairs = Train::new(Ring::open(12)?, Ring::open(11)?);
    report(rt, "a train of rings 12 and 11", &pairs)?;
    report(rt, "no key over a ring", &Keymap::new(Ring::open(3)?, &[]))?;
    report(
        rt,
        "33 keys over a ring",
        &Keymap::new(Ring::open(3)?, &[0; 33]),
    )?;
    report(rt, "a key over a misfit", &Keymap::new(many, &[0]))?;
    let both = Beside::new(Keymap::new(Ring::open(3)?, &[]), pairs);
    report(rt, "two misfits beside each other", &both)?;
    let upper = Train::new(
        Ring::open(3)?,
        Beside::new(Ring::open(3)?, Keymap::new(Ring::open(3)?, &[])),
    );
    report(rt, "a misfit at the bottom of three layers", &upper)?;
    Ok(())
}

fn main(rt: HostRuntime) -> Result<(), Trouble> {
    sound_piles(&rt)?;
    piles_with_holes(&rt)?;
    misfits(&rt)
}
