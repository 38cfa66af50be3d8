// The sum that ends a packet and a branch reply.
ghost use Rattle.std.specs.Prelude.{◌≡◌, ◌%◌};
ghost use Rattle.octets.specs.Bytes.{checksum_of};

pub fn checksum(bytes: &[u8]) -> u16
    ensures { result ≡ checksum_of bytes.now }
{
    // A loop by a rule of the project: the sum of a frame is a loop over the bytes of a slice.
    let mut sum = 0u16;
    for b in bytes {
        sum = sum.wrapping_add(u16::from(*b));
    }
    sum
}
