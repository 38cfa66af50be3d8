// Bytes at the beginning of a lent buffer.
ghost use Rattle.std.specs.Prelude.{◌≡◌, None};
ghost use Rattle.octets.specs.Writers.{answered, left_in};

use refusals::Refusal;

// Writes bytes to the beginning of a buffer and answers their number. Refuses a buffer that is too short (4), and then
// writes nothing.
pub fn write_bytes(bytes: &[u8], buf: &mut [u8]) -> Result<usize, Refusal>
    ensures answer { result ≡ answered None bytes.now buf.old }
    ensures after { buf.new ≡ left_in None bytes.now buf.old }
{
    if buf.len() < bytes.len() {
        return Err(Refusal::BufferTooShort);
    }
    buf[..bytes.len()].copy_from_slice(bytes);
    Ok(bytes.len())
}
