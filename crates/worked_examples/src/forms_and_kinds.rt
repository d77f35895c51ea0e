//! Offsets and keys, rings, and grids.
use forms::rings::{BACK, FORWARD, STAY};
use forms::{Grid, OpenRefusal, Ring};
use machine::outputs::to_hundredths;
use machine::{Cause, CheckRefusal, Command, Machine, Output, WheelMove, check};
use samples::{cell, fault};
use std::alloc::Global;
use std::test::Fail;

#[test]
fn offsets_go_to_the_nearest_hundredth(rt: HostRuntime) {
    let steps = [
        (4, 0),
        (5, 1),
        (14, 1),
        (15, 2),
        (25, 3),
        (-5, -1),
        (-14, -1),
        (-15, -2),
        (32767, 3277),
        (-32768, -3277),
    ];
    for (offset, hundredths) in steps {
        assert_eq!(rt; to_hundredths(offset), hundredths);
    }
}

#[test]
fn moves_are_alike_within_a_step_on_every_wheel(rt: HostRuntime) {
    let still = WheelMove {
        lift: 0,
        gamma: 0,
        gain: 0,
    };
    assert!(rt;
        still.alike(&WheelMove {
            lift: 4,
            gamma: -4,
            gain: 3,
        },)
    );
    assert!(rt;
        !still.alike(&WheelMove {
            lift: 0,
            gamma: 0,
            gain: 5,
        },)
    );
    assert!(rt;
        !still.alike(&WheelMove {
            lift: -5,
            gamma: 0,
            gain: 0,
        },)
    );
}

#[test]
fn a_ring_turns_both_ways(rt: HostRuntime) -> Result<(), Fail> {
    let ring = Ring::open(3)?;
    assert_eq!(rt; ring.entry(2, FORWARD), Ok(cell(0, 1)));
    assert_eq!(rt; ring.entry(0, BACK), Ok(cell(2, 2)));
    assert_eq!(rt; ring.entry(1, STAY), Ok(cell(1, 0)));
    assert_eq!(rt; ring.entry(3, 3), Err(fault(Cause::State, 3, 3, 0)));
    assert_eq!(rt; ring.entry(2, 3), Err(fault(Cause::Input, 2, 3, 0)));
    assert_eq!(rt; check(&ring), Ok(()));
    Ok(())
}

#[test]
fn rings_have_1_to_128_states(rt: HostRuntime) -> Result<(), Fail> {
    assert_eq!(rt; Ring::open(0).err(), Some(OpenRefusal::Size));
    assert_eq!(rt; Ring::open(1)?.states(), 1);
    assert_eq!(rt; Ring::open(128)?.states(), 128);
    assert_eq!(rt; Ring::open(129).err(), Some(OpenRefusal::Size));
    assert_eq!(rt; OpenRefusal::Size.number(), 10);
    Ok(())
}

/// A grid with one input and two next states.
fn grid(
    heap: Global,
    states: u16,
    start: u16,
    next: [u16; 2],
    outputs: usize,
) -> Result<Result<Grid<Command>, OpenRefusal>, Fail> {
    let next = next.to_vec(heap)?;
    let outputs = vec![in heap; Command { number: 7 }; outputs]?;
    Ok(Grid::open(states, 1, start, next, outputs))
}

#[test]
fn grids_are_refused_in_order(rt: HostRuntime) -> Result<(), Fail> {
    let heap = rt.alloc();
    let refusals = [
        (0, 9, 1, OpenRefusal::Size),
        (129, 200, 1, OpenRefusal::Size),
        (3, 3, 1, OpenRefusal::Start),
        (3, 2, 1, OpenRefusal::NextLength),
        (2, 1, 1, OpenRefusal::OutputLength),
    ];
    for (states, start, outputs, refusal) in refusals {
        assert_eq!(rt;
            grid(heap, states, start, [0, 1], outputs)?.err(),
            Some(refusal)
        );
    }
    Ok(())
}

#[test]
fn a_grid_tells_a_blank_from_a_wrong_state(rt: HostRuntime) -> Result<(), Fail> {
    let heap = rt.alloc();
    let full = grid(heap, 2, 1, [1, 0], 2)??;
    assert_eq!(rt; full.entry(0, 0), Ok(cell(1, 7)));
    assert_eq!(rt; check(&full), Ok(()));
    let blank = grid(heap, 2, 0, [1, 65535], 2)??;
    assert_eq!(rt;
        check(&blank),
        Err(CheckRefusal::Hole {
            state: 1,
            input: 0,
            fault: fault(Cause::Blank, 1, 0, 1),
        })
    );
    let wrong = grid(heap, 2, 0, [2, 65535], 2)??;
    assert_eq!(rt;
        check(&wrong),
        Err(CheckRefusal::Hole {
            state: 0,
            input: 0,
            fault: fault(Cause::Next, 0, 0, 0),
        })
    );
    Ok(())
}

#[test]
fn a_fault_speaks_in_words(rt: HostRuntime) -> Result<(), Fail> {
    let words = fault(Cause::Link, 2, 1, 30).to_string(rt.alloc())?;
    assert_eq!(rt; words.as_str(), "state 2 input 1: broken link at place 30");
    Ok(())
}

/// A grid with one state and so many inputs.
fn wide(heap: Global, inputs: u16) -> Result<Option<OpenRefusal>, Fail> {
    let next = vec![in heap; 0u16; inputs as usize]?;
    let outputs = vec![in heap; Command { number: 7 }; inputs as usize]?;
    Ok(Grid::open(1, inputs, 0, next, outputs).err())
}

#[test]
fn grids_have_1_to_32_inputs(rt: HostRuntime) -> Result<(), Fail> {
    let heap = rt.alloc();
    assert_eq!(rt; wide(heap, 0)?, Some(OpenRefusal::Size));
    assert_eq!(rt; wide(heap, 1)?, None);
    assert_eq!(rt; wide(heap, 32)?, None);
    assert_eq!(rt; wide(heap, 33)?, Some(OpenRefusal::Size));
    Ok(())
}

#[test]
fn lists_that_are_too_long_are_refused(rt: HostRuntime) -> Result<(), Fail> {
    let heap = rt.alloc();
    assert_eq!(rt;
        grid(heap, 1, 0, [0, 0], 1)?.err(),
        Some(OpenRefusal::NextLength)
    );
    assert_eq!(rt;
        grid(heap, 2, 0, [0, 0], 3)?.err(),
        Some(OpenRefusal::OutputLength)
    );
    Ok(())
}

#[test]
fn a_grid_counts_places_row_by_row(rt: HostRuntime) -> Result<(), Fail> {
    let heap = rt.alloc();
    let cells = [(0, 10), (1, 11), (0, 12), (1, 13), (2, 14), (65535, 15)];
    let grid = samples::grid(heap, 2, 3, 0, &cells)??;
    assert_eq!(rt; grid.entry(0, 1), Ok(cell(1, 11)));
    assert_eq!(rt; grid.entry(1, 0), Ok(cell(1, 13)));
    assert_eq!(rt; grid.entry(1, 1), Err(fault(Cause::Next, 1, 1, 4)));
    assert_eq!(rt; grid.entry(1, 2), Err(fault(Cause::Blank, 1, 2, 5)));
    assert_eq!(rt; grid.entry(2, 3), Err(fault(Cause::State, 2, 3, 0)));
    assert_eq!(rt; grid.entry(1, 3), Err(fault(Cause::Input, 1, 3, 0)));
    Ok(())
}

#[test]
fn commands_are_alike_when_they_are_equal(rt: HostRuntime) {
    assert!(rt; Command { number: 3 }.alike(&Command { number: 3 }));
    assert!(rt; !Command { number: 3 }.alike(&Command { number: 4 }));
}
