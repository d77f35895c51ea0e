//! A machine of six states and two inputs, round by round.
use forms::Grid;
use machine::{Command, Machine};
use runs::{Answer, Call, Log, play};
use samples::grid;
use sheet::{Pair, Refusal, Round, Sheet, Table, TableBuffer};
use six_states::CELLS;
use std::alloc::Global;
use std::test::Fail;
use tables::open_table;

fn six_states(heap: Global) -> Result<Grid<Command>, Fail> {
    Ok(grid(heap, 6, 2, 0, &CELLS)??)
}

#[test]
fn its_maps_split_three_times(rt: HostRuntime) -> Result<(), Fail> {
    let mut sheet = Sheet::open(six_states(rt.alloc())?);
    let mut map = [9u16; 7];
    sheet.map(&mut map)?;
    assert_eq!(rt; map, [0, 0, 0, 0, 0, 0, 9]);
    assert_eq!(rt; sheet.round(), Ok(Round::Split { count: 2 }));
    sheet.map(&mut map)?;
    assert_eq!(rt; map, [0, 0, 1, 0, 0, 1, 9]);
    assert_eq!(rt; sheet.round(), Ok(Round::Split { count: 3 }));
    sheet.map(&mut map)?;
    assert_eq!(rt; map, [0, 0, 1, 0, 0, 2, 9]);
    assert_eq!(rt; sheet.round(), Ok(Round::Split { count: 4 }));
    sheet.map(&mut map)?;
    assert_eq!(rt; map, [0, 1, 2, 0, 1, 3, 9]);
    assert_eq!(rt; sheet.round(), Ok(Round::Settled { count: 4 }));
    sheet.map(&mut map)?;
    assert_eq!(rt; map, [0, 1, 2, 0, 1, 3, 9]);
    assert_eq!(rt; sheet.round(), Err(Refusal::AlreadySettled));
    Ok(())
}

#[test]
fn its_words_are_the_shortest(rt: HostRuntime) -> Result<(), Fail> {
    let mut sheet = Sheet::open(six_states(rt.alloc())?);
    assert_eq!(rt; sheet.pair(0, 1), Ok(Pair::Together));
    sheet.settle()?;
    assert_eq!(rt; sheet.pair(0, 1), Ok(Pair::Apart(3)));
    assert_eq!(rt; sheet.pair(2, 5), Ok(Pair::Apart(2)));
    assert_eq!(rt; sheet.pair(0, 3), Ok(Pair::Equivalent));
    assert_eq!(rt; sheet.pair(0, 6), Err(Refusal::NoSuchState));
    let mut word = [9u16; 4];
    assert_eq!(rt; sheet.word(0, 1, &mut word), Ok(3));
    assert_eq!(rt; word, [1, 0, 0, 9]);
    assert_eq!(rt; sheet.word(2, 5, &mut word), Ok(2));
    assert_eq!(rt; word, [0, 0, 0, 9]);
    assert_eq!(rt; sheet.word(0, 3, &mut word), Err(Refusal::NotApart));
    assert_eq!(rt; sheet.word(4, 4, &mut word), Err(Refusal::NotApart));
    let mut short = [9u16; 2];
    assert_eq!(rt;
        sheet.word(0, 1, &mut short),
        Err(Refusal::Short { needed: 3 })
    );
    assert_eq!(rt; short, [9, 9]);
    Ok(())
}

#[test]
fn its_table_has_four_classes(rt: HostRuntime) -> Result<(), Fail> {
    let mut sheet = Sheet::open(six_states(rt.alloc())?);
    let mut next = [9u16; 8];
    let mut outputs = [Command { number: 9 }; 8];
    assert_eq!(rt;
        sheet.table(&mut next, &mut outputs),
        Err(Refusal::Unsettled)
    );
    sheet.settle()?;
    assert_eq!(rt;
        sheet.table(&mut next, &mut outputs),
        Ok(Table {
            classes: 4,
            start: 0,
        })
    );
    assert_eq!(rt; next, [1, 3, 0, 2, 0, 1, 2, 0]);
    assert_eq!(rt; outputs[4], Command { number: 1 });
    assert_eq!(rt; outputs[5], Command { number: 0 });
    Ok(())
}

#[test]
fn a_log_keeps_refusals_and_buffers(rt: HostRuntime) -> Result<(), Fail> {
    let heap = rt.alloc();
    let calls = [Call::Round, Call::Map, Call::Word(2, 0), Call::Table];
    let mut numbers = [9u16; 6];
    let mut next = [7u16; 3];
    let mut outputs = [Command { number: 5 }; 3];
    let mut log = Log::new(heap);
    play(
        six_states(heap)?,
        &calls,
        &mut numbers,
        &mut next,
        &mut outputs,
        &mut log,
    )?;
    assert_eq!(rt; numbers, [0, 0, 1, 0, 0, 1]);
    assert_eq!(rt; next, [7, 7, 7]);
    assert_eq!(rt; log.lines().len(), 4);
    for line in log.lines() {
        match line.answer {
            Answer::Round(r) => assert_eq!(rt; r, Ok(Round::Split { count: 2 })),
            Answer::Pair(r) => assert_eq!(rt; r, Ok(Pair::Together)),
            Answer::Map(r) => assert_eq!(rt; r, Ok(())),
            Answer::Word(r) => assert_eq!(rt; r, Ok(1)),
            Answer::Table(r) => assert_eq!(rt; r, Err(Refusal::Unsettled)),
        }
    }
    Ok(())
}

#[test]
fn its_table_opens_as_a_grid(rt: HostRuntime) -> Result<(), Fail> {
    let heap = rt.alloc();
    let mut sheet = Sheet::open(six_states(heap)?);
    sheet.settle()?;
    let mut next = vec![in heap; 9u16; 12]?;
    let mut outputs = vec![in heap; Command { number: 9 }; 12]?;
    let table = sheet.table(&mut next, &mut outputs)?;
    let grid = open_table(table, 2, next, outputs)?;
    assert_eq!(rt; grid.states(), 4);
    let again = Sheet::open(grid).settle()?;
    assert_eq!(rt; again.count, 4);
    Ok(())
}

#[test]
fn its_refusals_come_in_order(rt: HostRuntime) -> Result<(), Fail> {
    let heap = rt.alloc();
    let mut sheet = Sheet::open(six_states(heap)?);
    let mut none = vec![in heap; 9u16; 0]?;
    let mut seven = [9u16; 7];
    let mut eight = [9u16; 8];
    let mut few = [Command { number: 9 }; 7];
    assert_eq!(rt; sheet.word(6, 6, &mut none), Err(Refusal::NoSuchState));
    assert_eq!(rt; sheet.word(0, 1, &mut none), Err(Refusal::NotApart));
    assert_eq!(rt; sheet.table(&mut none, &mut few), Err(Refusal::Unsettled));
    sheet.settle()?;
    assert_eq!(rt; sheet.pair(6, 0), Err(Refusal::NoSuchState));
    assert_eq!(rt; sheet.word(6, 0, &mut none), Err(Refusal::NoSuchState));
    assert_eq!(rt; sheet.word(0, 3, &mut none), Err(Refusal::NotApart));
    assert_eq!(rt;
        sheet.word(0, 1, &mut none),
        Err(Refusal::Short { needed: 3 })
    );
    assert_eq!(rt; sheet.map(&mut none), Err(Refusal::Short { needed: 6 }));
    let first = Refusal::ShortTable(TableBuffer::Next);
    assert_eq!(rt; sheet.table(&mut seven, &mut few), Err(first));
    let second = Refusal::ShortTable(TableBuffer::Outputs);
    assert_eq!(rt; sheet.table(&mut eight, &mut few), Err(second));
    assert_eq!(rt; first.value(), Some(1));
    assert_eq!(rt; second.value(), Some(2));
    assert_eq!(rt; second.number(), 8);
    assert_eq!(rt; eight, [9; 8]);
    Ok(())
}
