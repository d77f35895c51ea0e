//! 16-bit numbers in bytes.
ghost use Rattle.std.specs.Prelude.{◌≡◌, ◌+◌, ◌*◌, ◌<◌, length};
ghost use Rattle.forms.specs.Bytes.{number};

// The number at a place, low byte first.
pub(crate) fn number_at(bytes: &[u8], place: usize) -> u16
    requires { 2 * place + 1 < length bytes.now }
    ensures { result ≡ number bytes.now place }
{
    u16::from_le_bytes([bytes[2 * place], bytes[2 * place + 1]])
}
