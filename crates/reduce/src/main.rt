//! Reads a chain from standard input and prints its report; a refusal ends the process with status 1.
#![tactic(auto)]

use reports::Report;
use std::io::Read;

// stays: the mains of draw and card but for the call; `run(&rt, ..)` would be a library's function with nothing to promise of what the handle does
fn main(rt: HostRuntime) -> anyhow::Result<()> {
    let heap = rt.alloc();
    let mut bytes = Vec::new(heap);
    rt.stdin().read_to_end(&mut bytes)?;
    let report = Report::of_bytes(heap, bytes)?;
    rt.print(report.text.as_str())?;
    report.verdict?;
    Ok(())
}
