//! Reads a chain from standard input and writes it in normal form to standard output. A refusal is told on standard error
//! as `reduce` tells it, and ends the process with status 1.
#![tactic(auto)]

use anyhow::anyhow;
use reports::Report;
use std::io::{Read, Write};
use writing::normalised;

fn main(rt: HostRuntime) -> anyhow::Result<()> {
    let heap = rt.alloc();
    let mut bytes = Vec::new(heap);
    rt.stdin().read_to_end(&mut bytes)?;
    let report = Report::of_bytes(heap, bytes.clone()?)?;
    if report.verdict.is_err() {
        rt.eprint(report.text.as_str())?;
    }
    report.verdict?;
    let chain = normalised(heap, bytes).map_err(|_| anyhow!("no memory"))?;
    rt.stdout().write_all(&chain)?;
    Ok(())
}
