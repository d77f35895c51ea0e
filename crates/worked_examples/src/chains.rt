//! A chain of six states, and what becomes of it when one of its numbers is another.
use reports::Report;
use samples::bytes_of;
use six_states::{FRONT, RECORDS};
use std::alloc::Global;
use std::test::Fail;

/// Which place gets which number, and what is said then.
pub(crate) const CHANGES: [(usize, u16, &str); 17] = [
    (0, 6, "states 6 inputs 2 start 0\n"),
    (2, 5, "states 6 inputs 2 start 5\n"),
    (0, 0, "refused 10\n"),
    (0, 129, "refused 10\n"),
    (1, 0, "refused 10\n"),
    (1, 33, "refused 10\n"),
    (2, 6, "refused 11\n"),
    (3, 4097, "refused 21\n"),
    (3, 11, "refused 22\n"),
    (6, 13, "refused 2 state 2 input 0 cause 5 record 0\n"),
    (6, 0, "refused 2 state 2 input 0 cause 3 record 0\n"),
    (14, 13, "refused 2 state 0 input 1 cause 5 record 1\n"),
    (14, 1, "refused 2 state 0 input 1 cause 5 record 1\n"),
    (14, 0, "refused 2 state 0 input 1 cause 3 record 1\n"),
    (15, 2, "refused 2 state 0 input 1 cause 3 record 2\n"),
    (27, 6, "refused 2 state 1 input 1 cause 4 record 4\n"),
    (27, 65535, "refused 2 state 1 input 1 cause 4 record 4\n"),
];

/// The chain's bytes with another number at a place.
pub(crate) fn changed(heap: Global, place: usize, number: u16) -> Result<Vec<u8>, Fail> {
    let mut bytes = bytes_of(heap, &FRONT, &RECORDS)?;
    let from = place.saturating_mul(2);
    for (old, new) in bytes.iter_mut().skip(from).zip(number.to_le_bytes()) {
        *old = new;
    }
    Ok(bytes)
}

#[test]
fn one_changed_number_is_told(rt: HostRuntime) -> Result<(), Fail> {
    let heap = rt.alloc();
    for (place, number, text) in CHANGES {
        let report = Report::of_bytes(heap, changed(heap, place, number)?)?;
        assert_eq!(rt; report.text.as_str(), text);
        assert!(rt; report.verdict.is_ok() == text.starts_with("states"));
    }
    Ok(())
}

#[test]
fn too_few_bytes_are_refused_first(rt: HostRuntime) -> Result<(), Fail> {
    let heap = rt.alloc();
    let seven = Report::of_bytes(heap, [0; 7].to_vec(heap)?)?;
    assert_eq!(rt; seven.text.as_str(), "refused 20\n");
    let eight = Report::of_bytes(heap, [0; 8].to_vec(heap)?)?;
    assert_eq!(rt; eight.text.as_str(), "refused 10\n");
    Ok(())
}
