//! The plain listing of a reduced machine, or the line of a refusal.
use crate::chains::{CHANGES, changed};
use listings::{Listing, show};
use samples::bytes_of;
use std::alloc::Global;
use std::test::Fail;

#[test]
fn refusals_are_told_in_a_line(rt: HostRuntime) -> Result<(), Fail> {
    let heap = rt.alloc();
    for (place, number, text) in CHANGES {
        if text.starts_with("refused") {
            let shown = show(heap, changed(heap, place, number)?, &Listing)?;
            assert_eq!(rt; shown.text.as_str(), text);
            assert!(rt; shown.verdict.is_err());
        }
    }
    Ok(())
}

#[test]
fn the_start_is_told_as_a_state_and_as_a_class(rt: HostRuntime) -> Result<(), Fail> {
    let heap = rt.alloc();
    let shown = show(heap, changed(heap, 2, 5)?, &Listing)?;
    assert!(rt; shown.verdict.is_ok());
    assert_eq!(rt;
        shown.text.as_str(),
        "states 6 inputs 2 start 5\nrounds 4 blocks 4 start 3\nmap 0 1 2 0 1 3\nrow 0 1 0 3 0\nrow 1 0 0 2 0\nrow 2 0 1 1 0\nrow 3 2 1 0 0\napart 0 1 by 1 0 0\napart 0 2 by 0\napart 0 3 by 0\napart 1 2 by 0\napart 1 3 by 0\napart 2 3 by 0 0\n"
    );
    Ok(())
}

#[test]
fn one_class_has_nothing_apart(rt: HostRuntime) -> Result<(), Fail> {
    let heap = rt.alloc();
    // two states that lead to each other with command 7
    let numbers = [2, 1, 0, 2, 1, 2, 0, 0, 1, 7, 0, 0, 0, 0, 7, 0];
    let bytes = bytes_of(heap, &numbers, &[])?;
    let shown = show(heap, bytes, &Listing)?;
    assert_eq!(rt;
        shown.text.as_str(),
        "states 2 inputs 1 start 0\nrounds 1 blocks 1 start 0\nmap 0 0\nrow 0 0 7\n"
    );
    Ok(())
}
