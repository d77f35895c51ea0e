//! The worked examples, as one theorem over the definitions that the contracts of the code cite.
#![tactic(auto)]

ghost use Rattle.examples.specs.MarkedExamples.{MarkedExamples};

/// Six states round by round, wheel offsets, a ring and a train: each gives what was worked out by hand.
pub fn the_marked_examples_hold()
    ensures { MarkedExamples }
{}
