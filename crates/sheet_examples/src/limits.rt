//! Machines at the panel's limits, moves that only look different, a machine with a hole, and a pile.
use forms::{Grid, Ring};
use layers::{Beside, Keymap};
use machine::{Command, Fault, WheelMove};
use samples::grid;
use sheet::{Pair, Refusal, Round, Settling, Sheet, Table};
use std::alloc::Global;
use std::test::Fail;

fn lifted(lift: i16) -> WheelMove {
    WheelMove {
        lift,
        gamma: 0,
        gain: 0,
    }
}

#[test]
fn moves_within_a_step_are_alike(rt: HostRuntime) -> Result<(), Fail> {
    let heap = rt.alloc();
    let next = [0, 1, 2].to_vec(heap)?;
    let outputs = [14, 6, 15].map(lifted).to_vec(heap)?;
    let mut sheet = Sheet::open(Grid::open(3, 1, 0, next, outputs)?);
    assert_eq!(rt;
        sheet.settle(),
        Ok(Settling {
            rounds: 2,
            count: 2,
        })
    );
    assert_eq!(rt; sheet.pair(0, 1), Ok(Pair::Equivalent));
    assert_eq!(rt; sheet.pair(0, 2), Ok(Pair::Apart(1)));
    Ok(())
}

#[test]
fn a_hole_is_refused_by_every_call(rt: HostRuntime) -> Result<(), Fail> {
    let heap = rt.alloc();
    let mut sheet = Sheet::open(grid(heap, 2, 1, 0, &[(1, 7), (65535, 7)])??);
    let mut numbers = [9u16; 2];
    let mut cells = [9u16; 2];
    let mut commands = [Command { number: 9 }; 2];
    assert_eq!(rt; sheet.round(), Err(Refusal::Unsound));
    assert_eq!(rt; sheet.settle(), Err(Refusal::Unsound));
    assert_eq!(rt; sheet.pair(5, 5), Err(Refusal::Unsound));
    assert_eq!(rt; sheet.map(&mut numbers), Err(Refusal::Unsound));
    assert_eq!(rt; sheet.word(0, 1, &mut numbers), Err(Refusal::Unsound));
    assert_eq!(rt;
        sheet.table(&mut cells, &mut commands),
        Err(Refusal::Unsound)
    );
    assert_eq!(rt; numbers, [9, 9]);
    assert_eq!(rt; Refusal::Unsound.number(), 3);
    Ok(())
}

#[test]
fn one_state_settles_at_once(rt: HostRuntime) -> Result<(), Fail> {
    let heap = rt.alloc();
    let mut sheet = Sheet::open(grid(heap, 1, 1, 0, &[(0, 7)])??);
    assert_eq!(rt; sheet.round(), Ok(Round::Settled { count: 1 }));
    let mut cells = [9u16; 1];
    let mut commands = [Command { number: 9 }; 1];
    assert_eq!(rt;
        sheet.table(&mut cells, &mut commands),
        Ok(Table {
            classes: 1,
            start: 0,
        })
    );
    Ok(())
}

/// Each state leads to the one below it, and only state 0 has another command.
fn stairs(heap: Global) -> Result<Grid<Command>, Fail> {
    let cells: Vec<(u16, u16)> = (0..128u16)
        .map(|s| (s.saturating_sub(1), u16::from(s == 0)))
        .collect(heap)?;
    Ok(grid(heap, 128, 1, 0, &cells)??)
}

#[test]
fn stairs_of_128_split_127_times(rt: HostRuntime) -> Result<(), Fail> {
    let mut sheet = Sheet::open(stairs(rt.alloc())?);
    assert_eq!(rt;
        sheet.settle(),
        Ok(Settling {
            rounds: 128,
            count: 128,
        })
    );
    assert_eq!(rt; sheet.settle(), Err(Refusal::AlreadySettled));
    assert_eq!(rt; sheet.pair(126, 127), Ok(Pair::Apart(127)));
    Ok(())
}

#[test]
fn equal_rings_of_a_pile_join(rt: HostRuntime) -> Result<(), Fail> {
    let rings = Beside::new(Ring::open(3)?, Ring::open(3)?);
    let mut sheet = Sheet::open(Keymap::new(rings, &[0, 2]));
    assert_eq!(rt;
        sheet.settle(),
        Ok(Settling {
            rounds: 3,
            count: 3,
        })
    );
    assert_eq!(rt; sheet.pair(1, 4), Ok(Pair::Equivalent));
    let mut map = [9u16; 6];
    assert_eq!(rt; sheet.map(&mut map), Ok(()));
    assert_eq!(rt; map, [0, 1, 2, 0, 1, 2]);
    let mut word = [9u16; 3];
    assert_eq!(rt; sheet.word(0, 4, &mut word), Ok(2));
    assert_eq!(rt; word, [0, 0, 9]);
    Ok(())
}

#[test]
fn a_class_has_the_outputs_of_its_lowest_state(rt: HostRuntime) -> Result<(), Fail> {
    let heap = rt.alloc();
    let next = [1, 0, 2].to_vec(heap)?;
    let outputs = [14, 6, 15].map(lifted).to_vec(heap)?;
    let mut sheet = Sheet::open(Grid::open(3, 1, 1, next, outputs)?);
    sheet.settle()?;
    let mut classes = [9u16; 3];
    let mut moves = [lifted(9); 3];
    assert_eq!(rt;
        sheet.table(&mut classes, &mut moves),
        Ok(Table {
            classes: 2,
            start: 0,
        })
    );
    assert_eq!(rt; classes, [0, 1, 9]);
    assert_eq!(rt; moves, [lifted(14), lifted(15), lifted(9)]);
    Ok(())
}

#[test]
fn a_misfit_is_opened_and_refused(rt: HostRuntime) -> Result<(), Fail> {
    let many = Beside::new(Ring::open(64)?, Ring::open(65)?);
    let mut sheet = Sheet::open(many);
    assert_eq!(rt; sheet.round(), Err(Refusal::Unsound));
    assert_eq!(rt; sheet.pair(0, 0), Err(Refusal::Unsound));
    Ok(())
}

#[test]
fn a_hole_is_told_before_a_short_buffer(rt: HostRuntime) -> Result<(), Fail> {
    let heap = rt.alloc();
    let sheet = Sheet::open(grid(heap, 2, 1, 0, &[(1, 7), (65535, 7)])??);
    let mut none = vec![in heap; 9u16; 0]?;
    let mut commands = vec![in heap; Command { number: 9 }; 0]?;
    assert_eq!(rt; sheet.map(&mut none), Err(Refusal::Unsound));
    assert_eq!(rt; sheet.word(9, 9, &mut none), Err(Refusal::Unsound));
    assert_eq!(rt;
        sheet.table(&mut none, &mut commands),
        Err(Refusal::Unsound)
    );
    Ok(())
}
