//! A recorder that keeps its log in a list.
ghost use Rattle.std.specs.Prelude.{◌≡◌, List, [], map};
ghost use Rattle.runs.specs.Lines.{entry_at};

use crate::{Answer, Call, Recorder};
use std::alloc::{AllocError, Global};

// stays: three lists beside each other, as long as the caller's buffers are, each of a length of its own
/// One entry: a call, its answer, and the buffers as it left them.
#[derive(Drop)]
pub struct Line<O> {
    pub call: Call,
    pub answer: Answer,
    pub numbers: Vec<u16>,
    pub next: Vec<u16>,
    pub outputs: Vec<O>,
}

/// The log of a run.
#[derive(Drop)]
pub struct Log<O> {
    heap: Global,
    lines: Vec<Line<O>>,
}

impl<O: Copy> Recorder<O> for Log<O> {
    type Stop = AllocError;

    ghost log = { λ s. map entry_at s.lines.items };

    fn note(
        &mut self,
        call: Call,
        answer: Answer,
        numbers: &[u16],
        next: &[u16],
        outputs: &[O],
    ) -> Result<(), AllocError> {
        let line = Line {
            call,
            answer,
            numbers: Vec::from_slice(self.heap, numbers)?,
            next: Vec::from_slice(self.heap, next)?,
            outputs: Vec::from_slice(self.heap, outputs)?,
        };
        self.lines.push(line)?;
        Ok(())
    }
}

impl<O> Log<O> {
    /// A log with nothing in it.
    pub fn new(heap: Global) -> Log<O>
        ensures { result.lines.items ≡ [] }
    {
        Log {
            heap,
            lines: Vec::new(heap),
        }
    }

    /// What was noted, in order.
    pub fn lines(&self) -> &[Line<O>]
        ensures { result.now ≡ self.now.lines.items }
    {
        self.lines.as_slice()
    }
}
