//! Reads a chain from standard input, plays a list of calls on its sheet with roomy and with tight buffers, and prints the log.
#![tactic(auto)]

use anyhow::anyhow;
use forms::Chain;
use log_texts::push_line;
use machine::Command;
use runs::{Call, Log, play};
use std::io::Read;

const CALLS: [Call; 22] = [
    Call::Pair(0, 1),
    Call::Map,
    Call::Table,
    Call::Word(0, 1),
    Call::Round,
    Call::Map,
    Call::Pair(2, 5),
    Call::Round,
    Call::Pair(2, 5),
    Call::Word(2, 5),
    Call::Round,
    Call::Map,
    Call::Word(0, 1),
    Call::Round,
    Call::Round,
    Call::Pair(0, 3),
    Call::Pair(0, 6),
    Call::Word(0, 3),
    Call::Word(4, 4),
    Call::Word(0, 1),
    Call::Map,
    Call::Table,
];

/// Plays the calls with buffers of these lengths, filled with 9 before.
fn rehearse(rt: &HostRuntime, bytes: Vec<u8>, numbers: usize, cells: usize) -> anyhow::Result<()> {
    let heap = rt.alloc();
    let chain = Chain::open(bytes).map_err(|_| anyhow!("no chain"))?;
    let mut numbers = vec![in heap; 9u16; numbers]?;
    let mut next = vec![in heap; 9u16; cells]?;
    let mut outputs = vec![in heap; Command { number: 9 }; cells]?;
    let mut log = Log::new(heap);
    play(
        chain,
        &CALLS,
        &mut numbers,
        &mut next,
        &mut outputs,
        &mut log,
    )?;
    let mut text = String::new(heap);
    for line in log.lines() {
        push_line(&mut text, line)?;
    }
    rt.print(text.as_str())?;
    Ok(())
}

fn main(rt: HostRuntime) -> anyhow::Result<()> {
    let mut bytes = Vec::new(rt.alloc());
    rt.stdin().read_to_end(&mut bytes)?;
    println!(rt; "with 7 numbers and 9 cells")?;
    rehearse(&rt, bytes.clone()?, 7, 9)?;
    println!(rt; "with 2 numbers and 7 cells")?;
    rehearse(&rt, bytes, 2, 7)
}
