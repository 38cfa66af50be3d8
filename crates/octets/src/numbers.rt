// Numbers in a packet, high byte first.
ghost use Rattle.std.specs.Prelude.{◌≡◌, ◌+◌, ◌^◌, ◌<◌, ◌≤◌, length, slice_range};
ghost use Rattle.octets.specs.Bytes.{two_at, six_at};

fn bytes_at<const N: usize>(bytes: &[u8], at: usize) -> [u8; N]
    requires { at + N ≤ length bytes.now }
    ensures { result ≡ slice_range bytes.now at (at + N) }
{
    <[u8; N]>::try_from(&bytes[at..at + N]).unwrap()
}

pub fn two_at(bytes: &[u8], at: usize) -> u16
    requires { at + 2 ≤ length bytes.now }
    ensures { result ≡ two_at bytes.now at }
{
    u16::from_be_bytes(bytes_at(bytes, at))
}

pub fn six_at(bytes: &[u8], at: usize) -> u64
    requires { at + 6 ≤ length bytes.now }
    ensures value { result ≡ six_at bytes.now at }
    ensures bound { result < 2 ^ 48 }
{
    let [a, b, c, d, e, f]: [u8; 6] = bytes_at(bytes, at);
    u64::from_be_bytes([0, 0, a, b, c, d, e, f])
}
