//! The library as a program in another language reaches it: a script of numbers goes in, and the text of every answer comes out.
//! docs/COMPARISON.md has the script and the text.
#![tactic(auto)]

ghost use Rattle.std.specs.Prelude.{◌≡◌, ◌≤◌, ◌++◌, length, drop};
ghost use Rattle.machine.specs.Wheels.{hundredths};
ghost use Rattle.bridge.specs.Handed.{Handed};

use crate::piles::play_script;
use machine::outputs::to_hundredths;
use std::alloc::Global;

/// Plays a script and writes the text of what was answered to the front of the buffer, where it fits; answers its length.
/// The length is the highest number where there was no memory.
#[unsafe(no_mangle)]
pub extern "C" fn bridge_play(heap: Global, script: &[u16], out: &mut [u8]) -> usize
    ensures { Handed result out.old out.new }
{
    match play_script(heap, script) {
        Ok(text) => hand_over(text.as_bytes(), out),
        // stays: C has no Option
        Err(_) => usize::MAX,
    }
}

/// An offset in thousandths as the renderer shows it.
#[unsafe(no_mangle)]
pub extern "C" fn bridge_hundredths(offset: i16) -> i16
    ensures { result ≡ hundredths offset }
{
    to_hundredths(offset)
}

/// Writes bytes to the front of a buffer that has room for them, and answers how many there are.
fn hand_over(bytes: &[u8], out: &mut [u8]) -> usize
    ensures count { result ≡ length bytes.now }
    ensures front { length bytes.now ≤ length out.old → out.new ≡ bytes.now ++ drop (length bytes.now) out.old }
    ensures rest { Handed result out.old out.new }
{
    let count = bytes.len();
    if count <= out.len() {
        out[..count].copy_from_slice(bytes);
    }
    count
}

mod buffers;
mod calls;
mod lines;
mod piles;
mod scripts;
mod troubles;
