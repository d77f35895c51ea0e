//! In which order piles find causes, whose fault they answer with, and what they make of starts, commands and keys.
use forms::Ring;
use forms::grids::BLANK;
use layers::{Beside, Keymap, KeymapFault, LayerFault, PairFault, Train};
use machine::{Cause, Machine};
use samples::{cell, fault, grid};
use std::test::Fail;

// written out, since `LayerFault::own` is what the layers themselves answer by
pub(crate) fn own(cause: Cause, state: u16, input: u16) -> LayerFault {
    LayerFault {
        cause,
        state,
        input,
    }
}

#[test]
fn a_misfit_is_told_before_any_range(rt: HostRuntime) -> Result<(), Fail> {
    let many = Beside::new(Ring::open(64)?, Ring::open(65)?);
    assert_eq!(rt;
        many.entry(65535, 65535),
        Err(PairFault::Own(own(Cause::Misfit, 65535, 65535)))
    );
    let pairs = Train::new(Ring::open(43)?, Ring::open(3)?);
    assert_eq!(rt;
        pairs.entry(0, 3),
        Err(PairFault::Own(own(Cause::Misfit, 0, 3)))
    );
    let none = Keymap::new(Ring::open(3)?, &[]);
    assert_eq!(rt;
        none.entry(3, 0),
        Err(KeymapFault::Own(own(Cause::Misfit, 3, 0)))
    );
    Ok(())
}

#[test]
fn a_misfit_part_answers_for_the_same_numbers(rt: HostRuntime) -> Result<(), Fail> {
    let many = Beside::new(Ring::open(64)?, Ring::open(65)?);
    assert_eq!(rt;
        Keymap::new(many, &[0]).entry(200, 7),
        Err(KeymapFault::Part(PairFault::Own(own(Cause::Misfit, 200, 7))))
    );
    let fault = KeymapFault::Own(own(Cause::Misfit, 9, 5));
    let upper = Train::new(Ring::open(3)?, Keymap::new(Ring::open(3)?, &[]));
    assert_eq!(rt; upper.entry(9, 5), Err(PairFault::Second(fault)));
    let both = Train::new(
        Keymap::new(Ring::open(3)?, &[]),
        Keymap::new(Ring::open(3)?, &[]),
    );
    assert_eq!(rt; both.entry(9, 5), Err(PairFault::First(fault)));
    Ok(())
}

#[test]
fn a_layer_tests_states_and_then_inputs(rt: HostRuntime) -> Result<(), Fail> {
    let beside = Beside::new(Ring::open(2)?, Ring::open(3)?);
    assert_eq!(rt;
        beside.entry(5, 3),
        Err(PairFault::Own(own(Cause::State, 5, 3)))
    );
    assert_eq!(rt;
        beside.entry(4, 3),
        Err(PairFault::Own(own(Cause::Input, 4, 3)))
    );
    let train = Train::new(Ring::open(2)?, Ring::open(3)?);
    assert_eq!(rt;
        train.entry(6, 3),
        Err(PairFault::Own(own(Cause::State, 6, 3)))
    );
    assert_eq!(rt;
        train.entry(5, 3),
        Err(PairFault::Own(own(Cause::Input, 5, 3)))
    );
    let keys = Keymap::new(Ring::open(2)?, &[0, 9]);
    assert_eq!(rt;
        keys.entry(2, 1),
        Err(KeymapFault::Own(own(Cause::State, 2, 1)))
    );
    assert_eq!(rt;
        keys.entry(1, 2),
        Err(KeymapFault::Own(own(Cause::Input, 1, 2)))
    );
    Ok(())
}

#[test]
fn a_start_is_made_of_the_starts_of_the_parts(rt: HostRuntime) -> Result<(), Fail> {
    let heap = rt.alloc();
    let three = [(0, 0), (0, 0), (0, 0)];
    let two = [(0, 0), (0, 0)];
    let beside = Beside::new(grid(heap, 3, 1, 2, &three)??, grid(heap, 2, 1, 1, &two)??);
    assert_eq!(rt; beside.start(), 2);
    let train = Train::new(grid(heap, 3, 1, 2, &three)??, grid(heap, 2, 1, 1, &two)??);
    assert_eq!(rt; train.start(), 5);
    assert_eq!(rt;
        Keymap::new(grid(heap, 3, 1, 2, &three)??, &[0, 0]).start(),
        2
    );
    Ok(())
}

#[test]
fn a_command_too_large_is_the_highest_input(rt: HostRuntime) -> Result<(), Fail> {
    let commands = [(0, 0), (0, 1), (0, 2), (0, 65535)];
    // two inputs: 0 stays and 1 goes forward
    let upper = Keymap::new(Ring::open(4)?, &[2, 0]);
    let train = Train::new(grid(rt.alloc(), 1, 4, 0, &commands)??, upper);
    assert_eq!(rt; train.entry(0, 0), Ok(cell(0, 0)));
    assert_eq!(rt; train.entry(0, 1), Ok(cell(1, 0)));
    assert_eq!(rt; train.entry(0, 2), Ok(cell(1, 0)));
    assert_eq!(rt; train.entry(3, 3), Ok(cell(0, 1)));
    Ok(())
}

#[test]
fn the_lower_part_is_asked_first(rt: HostRuntime) -> Result<(), Fail> {
    let heap = rt.alloc();
    let lower = grid(heap, 1, 2, 0, &[(BLANK, 0), (0, 0)])??;
    let upper = grid(heap, 2, 1, 0, &[(0, 0), (BLANK, 0)])??;
    let train = Train::new(lower, upper);
    assert_eq!(rt;
        train.entry(1, 0),
        Err(PairFault::First(fault(Cause::Blank, 0, 0, 0)))
    );
    assert_eq!(rt;
        train.entry(1, 1),
        Err(PairFault::Second(fault(Cause::Blank, 1, 0, 1)))
    );
    Ok(())
}

#[test]
fn layers_reach_the_limits(rt: HostRuntime) -> Result<(), Fail> {
    assert_eq!(rt; Train::new(Ring::open(16)?, Ring::open(8)?).states(), 128);
    assert_eq!(rt; Train::new(Ring::open(43)?, Ring::open(3)?).states(), 0);
    assert_eq!(rt; Keymap::new(Ring::open(3)?, &[2; 32]).inputs(), 32);
    assert_eq!(rt; Keymap::new(Ring::open(3)?, &[2; 33]).inputs(), 0);
    let two = Keymap::new(Ring::open(3)?, &[0, 1]);
    assert_eq!(rt; Beside::new(Ring::open(3)?, two).states(), 0);
    Ok(())
}

#[test]
fn a_key_map_copies_its_list(rt: HostRuntime) -> Result<(), Fail> {
    let mut keys = [0, 2];
    let map = Keymap::new(Ring::open(3)?, &keys);
    keys[0] = 1;
    assert_eq!(rt; keys, [1, 2]);
    assert_eq!(rt; map.entry(0, 0), Ok(cell(1, 0)));
    Ok(())
}
