//! Chains opened at their limits, and walks along records that overlap, lead back or end.
use forms::{Chain, OpenRefusal};
use machine::{Cause, Machine};
use samples::{bytes_of, cell, fault};
use std::alloc::Global;
use std::test::Fail;

#[test]
fn the_first_record_that_serves_gives_the_cell(rt: HostRuntime) -> Result<(), Fail> {
    // both records serve input 1; the link of the second leads nowhere, which only input 3 finds out
    let numbers = [1, 4, 0, 2, 1, 0, 1, 0, 5, 2, 1, 2, 0, 6, 9];
    let chain = Chain::open(bytes_of(rt.alloc(), &numbers, &[])?)?;
    assert_eq!(rt; chain.entry(0, 0), Ok(cell(0, 5)));
    assert_eq!(rt; chain.entry(0, 1), Ok(cell(0, 5)));
    assert_eq!(rt; chain.entry(0, 2), Ok(cell(0, 6)));
    assert_eq!(rt; chain.entry(0, 3), Err(fault(Cause::Link, 0, 3, 2)));
    Ok(())
}

#[test]
fn a_range_turned_around_serves_nothing(rt: HostRuntime) -> Result<(), Fail> {
    let numbers = [1, 2, 0, 1, 1, 1, 0, 0, 5, 0];
    let chain = Chain::open(bytes_of(rt.alloc(), &numbers, &[])?)?;
    assert_eq!(rt; chain.entry(0, 0), Err(fault(Cause::Blank, 0, 0, 1)));
    assert_eq!(rt; chain.entry(0, 1), Err(fault(Cause::Blank, 0, 1, 1)));
    Ok(())
}

#[test]
fn states_and_inputs_are_tested_before_a_walk(rt: HostRuntime) -> Result<(), Fail> {
    // the record serves more inputs than there are
    let numbers = [1, 2, 0, 1, 1, 0, 9, 0, 5, 0];
    let chain = Chain::open(bytes_of(rt.alloc(), &numbers, &[])?)?;
    assert_eq!(rt; chain.entry(1, 2), Err(fault(Cause::State, 1, 2, 0)));
    assert_eq!(rt; chain.entry(0, 2), Err(fault(Cause::Input, 0, 2, 0)));
    assert_eq!(rt; chain.entry(0, 1), Ok(cell(0, 5)));
    Ok(())
}

#[test]
fn a_link_back_is_broken(rt: HostRuntime) -> Result<(), Fail> {
    let numbers = [1, 3, 0, 2, 1, 0, 0, 0, 5, 2, 1, 1, 0, 6, 1];
    let chain = Chain::open(bytes_of(rt.alloc(), &numbers, &[])?)?;
    assert_eq!(rt; chain.entry(0, 1), Ok(cell(0, 6)));
    assert_eq!(rt; chain.entry(0, 2), Err(fault(Cause::Link, 0, 2, 2)));
    Ok(())
}

#[test]
fn chains_are_refused_in_order(rt: HostRuntime) -> Result<(), Fail> {
    let heap = rt.alloc();
    let refusals = [
        ([0, 0, 0, 4097], OpenRefusal::Size),
        ([1, 1, 1, 4097], OpenRefusal::Start),
        ([1, 1, 0, 4097], OpenRefusal::Records),
        ([1, 1, 0, 0], OpenRefusal::Length),
    ];
    for (numbers, refusal) in refusals {
        assert_eq!(rt;
            Chain::open(bytes_of(heap, &numbers, &[])?).err(),
            Some(refusal)
        );
    }
    let mut odd = bytes_of(heap, &[1, 1, 0, 0, 0], &[])?;
    assert!(rt; Chain::open(odd.clone()?).is_ok());
    odd.push(0)?;
    assert_eq!(rt; Chain::open(odd).err(), Some(OpenRefusal::Length));
    Ok(())
}

/// Opens a chain of one state and m records of nothing but 0.
fn opened(heap: Global, m: u16) -> Result<Option<OpenRefusal>, Fail> {
    let mut numbers = vec![in heap; 0u16; 5 + 5 * m as usize]?;
    numbers[0] = 1;
    numbers[1] = 1;
    numbers[3] = m;
    Ok(Chain::open(bytes_of(heap, &numbers, &[])?).err())
}

#[test]
fn chains_have_up_to_4096_records(rt: HostRuntime) -> Result<(), Fail> {
    let heap = rt.alloc();
    assert_eq!(rt; opened(heap, 4096)?, None);
    assert_eq!(rt; opened(heap, 4097)?, Some(OpenRefusal::Records));
    Ok(())
}
