//! 16-bit numbers into bytes.
ghost use Rattle.std.specs.Prelude.{◌≡◌, ◌+◌, ◌*◌, ◌<◌, ◌≤◌, length};
ghost use Rattle.writing.specs.Bytes.{put_at, puts};

// stays: two places by index, and one by one below: the proof knows nothing of what `chunks_exact_mut(2)` and a zip of it write
/// Writes a number at a place, low byte first.
fn put(out: &mut [u8], place: usize, number: u16)
    requires { 2 * place + 1 < length out.old }
    ensures { out.new ≡ put_at out.old place number }
{
    let [low, high] = number.to_le_bytes();
    out[2 * place] = low;
    out[2 * place + 1] = high;
}

/// Writes numbers from a place on.
pub(crate) fn put_all(out: &mut [u8], place: usize, numbers: &[u16])
    requires { 2 * (place + length numbers.now) ≤ length out.old }
    ensures { out.new ≡ puts out.old place numbers.now }
{
    for (i, number) in numbers.iter().enumerate() {
        put(out, place + i, *number);
    }
}
