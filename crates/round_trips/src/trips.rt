//! What is written of rings, grids and a pile, byte by byte, and what is read again.
ghost use Rattle.std.specs.Prelude.{◌≡◌, is_ok};

use forms::grids::BLANK;
use forms::{Chain, Grid, OpenRefusal, Ring};
use layers::{Beside, Keymap, LayerFault, PairFault, Train};
use machine::{Cause, CheckRefusal, Command, Fault, Machine, StoredFault};
use samples::{bytes_of, fault, grid};
use six_states::{CELLS, FRONT, RECORDS};
use std::alloc::Global;
use std::test::Fail;
use writing::{NormalRefusal, WriteRefusal, normalised, write_chain};

/// What an assert says in a test, where no handle is at hand that may end the process.
fn expect(holds: bool) -> Result<(), Fail>
    ensures { is_ok result ≡ holds }
{
    if holds {
        Ok(())
    } else {
        Err("not as expected".into())
    }
}

/// Writes a machine into a larger buffer, compares all of it with the expected chain, and opens that again.
fn goes_round<M: Machine<Out = Command>>(machine: &M, expected: Vec<u8>) -> Result<(), Fail> {
    let mut out = [7u8; 200];
    let count = write_chain(machine, &mut out).map_err(|_| Fail::new("refused"))?;
    expect(count == expected.len())?;
    for (i, byte) in out.iter().enumerate() {
        expect(*byte == expected.get(i).copied().unwrap_or(7))?;
    }
    let chain = Chain::open(expected)?;
    expect(chain.start() == machine.start())?;
    for s in 0..machine.states() {
        for i in 0..machine.inputs() {
            expect(chain.entry(s, i).ok() == machine.entry(s, i).ok())?;
        }
    }
    Ok(())
}

#[test]
fn rings_go_round(rt: HostRuntime) -> Result<(), Fail> {
    let heap = rt.alloc();
    let one = [[0, 0, 0, 1, 2], [1, 1, 0, 2, 3], [2, 2, 0, 0, 0]];
    goes_round(&Ring::open(1)?, bytes_of(heap, &[1, 3, 0, 3, 1], &one)?)?;
    let two = [
        [0, 0, 1, 0, 2],
        [1, 1, 1, 2, 3],
        [2, 2, 0, 0, 0],
        [0, 0, 0, 1, 5],
        [1, 1, 0, 0, 6],
        [2, 2, 1, 0, 0],
    ];
    goes_round(&Ring::open(2)?, bytes_of(heap, &[2, 3, 0, 6, 1, 4], &two)?)
}

#[test]
fn a_pile_goes_round(rt: HostRuntime) -> Result<(), Fail> {
    let heap = rt.alloc();
    let pile = Keymap::new(Train::new(Ring::open(2)?, Ring::open(2)?), &[0, 0, 2]);
    let records = [
        [0, 1, 3, 0, 2],
        [2, 2, 1, 0, 0],
        [0, 1, 2, 1, 4],
        [2, 2, 0, 1, 0],
        [0, 1, 1, 2, 6],
        [2, 2, 3, 0, 0],
        [0, 1, 0, 0, 8],
        [2, 2, 2, 1, 0],
    ];
    goes_round(&pile, bytes_of(heap, &[4, 3, 0, 8, 1, 3, 5, 7], &records)?)
}

#[test]
fn equal_cells_share_a_record(rt: HostRuntime) -> Result<(), Fail> {
    let heap = rt.alloc();
    let cells = [
        (1, 5),
        (1, 5),
        (0, 5),
        (0, 5),
        (1, 300),
        (1, 300),
        (1, 300),
        (1, 300),
    ];
    let records = [[0, 1, 1, 5, 2], [2, 3, 0, 5, 0], [0, 3, 1, 300, 0]];
    goes_round(
        &grid(heap, 2, 4, 0, &cells)??,
        bytes_of(heap, &[2, 4, 0, 3, 1, 3], &records)?,
    )
}

#[test]
fn six_states_take_140_bytes(rt: HostRuntime) -> Result<(), Fail> {
    let heap = rt.alloc();
    goes_round(
        &grid(heap, 6, 2, 0, &CELLS)??,
        bytes_of(heap, &FRONT, &RECORDS)?,
    )
}

#[test]
fn a_refusal_changes_no_byte(rt: HostRuntime) -> Result<(), Fail> {
    let heap = rt.alloc();
    let mut out = [7u8; 139];
    let short = write_chain(&grid(heap, 6, 2, 0, &CELLS)??, &mut out);
    assert_eq!(rt; short, Err(WriteRefusal::Short { needed: 140 }));
    let fault = fault(Cause::Blank, 1, 0, 1);
    let hole = CheckRefusal::Hole {
        state: 1,
        input: 0,
        fault,
    };
    let blank = grid(heap, 2, 1, 0, &[(0, 0), (BLANK, 0)])??;
    assert_eq!(rt;
        write_chain(&blank, &mut out),
        Err(WriteRefusal::Unsound(hole))
    );
    assert_eq!(rt; WriteRefusal::Unsound(hole).number(), 2);
    assert_eq!(rt; &out[..], &[7u8; 139][..]);
    Ok(())
}

#[test]
fn a_chain_is_put_in_normal_form(rt: HostRuntime) -> Result<(), Fail> {
    let heap = rt.alloc();
    // two records for one run, the second of them first, and one that no head reaches
    let patched = [[1, 1, 0, 9, 3], [0, 0, 0, 8, 0], [0, 0, 0, 9, 0]];
    let chain = bytes_of(heap, &[1, 2, 0, 3, 1], &patched)?;
    let bytes = normalised(heap, chain).map_err(|_| Fail::new("refused"))?;
    let normal = bytes_of(heap, &[1, 2, 0, 1, 1], &[[0, 1, 0, 9, 0]])?;
    assert_eq!(rt; bytes.as_slice(), normal.as_slice());
    assert_eq!(rt;
        normalised(heap, bytes_of(heap, &[1, 2, 0], &[])?).err(),
        Some(NormalRefusal::Unopened(OpenRefusal::Front))
    );
    let holed = bytes_of(heap, &[1, 2, 0, 1, 1], &[[0, 0, 0, 9, 0]])?;
    let fault = fault(Cause::Blank, 0, 1, 1);
    let hole = CheckRefusal::Hole {
        state: 0,
        input: 1,
        fault,
    };
    assert_eq!(rt;
        normalised(heap, holed).err(),
        Some(NormalRefusal::Unsound(hole))
    );
    Ok(())
}

#[test]
fn a_misfit_is_not_written(rt: HostRuntime) -> Result<(), Fail> {
    let many = Beside::new(Ring::open(64)?, Ring::open(65)?);
    let fault = LayerFault {
        cause: Cause::Misfit,
        state: 0,
        input: 0,
    };
    let misfit = WriteRefusal::Unsound(CheckRefusal::Misfit(PairFault::Own(fault)));
    let mut out = [7u8; 4];
    assert_eq!(rt; write_chain(&many, &mut out), Err(misfit));
    assert_eq!(rt; misfit.number(), 1);
    assert_eq!(rt; out, [7; 4]);
    Ok(())
}

#[test]
fn the_largest_chain_takes_41224_bytes(rt: HostRuntime) -> Result<(), Fail> {
    let heap = rt.alloc();
    let cells: Vec<(u16, u16)> = (0..4096u16).map(|i| (i / 32, i % 32)).collect(heap)?;
    let grid = grid(heap, 128, 32, 127, &cells)??;
    let mut short = vec![in heap; 7u8; 41223]?;
    assert_eq!(rt;
        write_chain(&grid, &mut short),
        Err(WriteRefusal::Short { needed: 41224 })
    );
    let mut out = vec![in heap; 7u8; 41224]?;
    assert_eq!(rt; write_chain(&grid, &mut out), Ok(41224));
    let chain = Chain::open(out)?;
    assert_eq!(rt; chain.start(), 127);
    assert_eq!(rt; chain.entry(127, 31).ok(), grid.entry(127, 31).ok());
    Ok(())
}
