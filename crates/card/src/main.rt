//! Reads a chain from standard input and prints a card of the keys that tell its modes apart; a refusal ends the process with status 1.
#![tactic(auto)]

use listings::show;
use std::io::Read;
use views::Card;

// stays: draw's main but for the view; `run(&rt, &Card)` would be a library's function with nothing to promise of what the handle does
fn main(rt: HostRuntime) -> anyhow::Result<()> {
    let heap = rt.alloc();
    let mut bytes = Vec::new(heap);
    rt.stdin().read_to_end(&mut bytes)?;
    let report = show(heap, bytes, &Card)?;
    rt.print(report.text.as_str())?;
    report.verdict?;
    Ok(())
}
