//! The loops behind the calls, over rows of block numbers.
ghost use Rattle.std.specs.Prelude.{◌≡◌, ℕ, ◌*◌, ◌<◌, ◌≤◌, not, ◌++◌, length, take, drop, replicate, ◌==◌, nat_eq, slice_index, position};
ghost use Rattle.mealy.specs.Below.{lowest};
ghost use Rattle.rounds.specs.Joining.{some_below};
ghost use Rattle.sheet.specs.Standing.{stage_of};
ghost use Rattle.sheet.specs.Steps.{Apart, Blocks, Spelt, Tabled};

use crate::Sheet;
use machine::{Machine, Output};
use rounds::Numbering;

/// The rows of a fresh sheet.
pub(crate) fn blank() -> [[u8; 128]; 128]
    ensures { result ≡ replicate 128 (replicate 128 0) }
{
    [[0; 128]; 128]
}

/// Writes the first n numbers of a row into the first n places.
pub(crate) fn copy_front(row: &[u8; 128], n: usize, out: &mut [u16])
    requires { (n ≤ 128) × (n ≤ length out.old) }
    ensures { out.new ≡ take n row.now ++ drop n out.old }
{
    // stays: row[s] by its place, since the proof knows nothing of what `iter_mut().zip(&row[..n])` writes
    for (s, place) in out[..n].iter_mut().enumerate() {
        *place = u16::from(row[s]);
    }
}

/// The first row in which two places differ.
pub(crate) fn first_apart(rows: &[[u8; 128]], s: usize, t: usize) -> Option<usize>
    requires { (s < 128) × (t < 128) }
    ensures { result ≡ position (λ row. not (slice_index row s == slice_index row t)) rows.now }
{
    rows.iter().position(|row| row[s] != row[t])
}

/// The lowest state below n with the number c.
fn first_with(row: &[u8; 128], n: usize, c: u8) -> Option<usize>
    requires { n ≤ 128 }
    ensures { result ≡ some_below n (lowest n (λ s. nat_eq (slice_index row.now s) c)) }
{
    row[..n].iter().position(|block| *block == c)
}

impl<M: Machine> Sheet<M> {
    /// Writes the word of two states that P j sets apart: at each place the first input that does, by the partition before.
    pub(crate) fn spell(&self, j: usize, s: u16, t: u16, out: &mut [u16])
        requires room { j ≤ length out.old }
        requires apart { Apart (stage_of self.now) j s t }
        ensures { Spelt (stage_of self.now) j s t out.old out.new }
    {
        let mut a = s;
        let mut b = t;
        // stays: tried in copy_front, the proof knows nothing of what a zip over iter_mut() writes, as zip(rows[..j].iter().rev()) here
        for place in 0..j {
            let before = Numbering {
                machine: &self.machine,
                row: &self.rows[j - 1 - place],
            };
            let Some(i) = before.first_input(a, b) else {
                unreachable()
            };
            let (Ok(x), Ok(y)) = (self.machine.entry(a, i), self.machine.entry(b, i)) else {
                unreachable()
            };
            out[place] = i;
            if !x.output.alike(&y.output) {
                return;
            }
            a = x.next;
            b = y.next;
        }
    }
}

/// Writes the cells of the machine whose states are the numbers of a row: place x is of the number x / k and the input x % k.
pub(crate) fn fill<M: Machine>(
    machine: &M,
    row: &[u8; 128],
    total: usize,
    next: &mut [u16],
    outputs: &mut [M::Out],
)
    requires blocks { (j : ℕ) × Blocks M.Out.Output.key (M.Machine.means machine.now) row.now j total }
    requires few { total ≤ 128 * (M.Machine.means machine.now).inputs }
    requires room { (total ≤ length next.old) × (total ≤ length outputs.old) }
    ensures { Tabled M.Out.Output.key (M.Machine.means machine.now) row.now total next.old outputs.old next.new outputs.new }
{
    let n = machine.states() as usize;
    let k = machine.inputs() as usize;
    // stays: as in spell, the proof knows nothing of what a zip of the buffers' iter_mut() or chunks_mut() writes
    for x in 0..total {
        let Some(s) = first_with(row, n, (x / k) as u8) else {
            unreachable()
        };
        let Ok(cell) = machine.entry(s as u16, (x % k) as u16) else {
            unreachable()
        };
        next[x] = u16::from(row[cell.next as usize]);
        outputs[x] = cell.output;
    }
}
