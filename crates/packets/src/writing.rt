// Writing a packet: the header, the data and the checksum.
ghost use Rattle.std.specs.Prelude.{◌≡◌, ◌≤◌, length, None};
ghost use Rattle.packets.specs.Packet.{packet_of, header_bytes};
ghost use Rattle.octets.specs.Writers.{answered, left_in};

use crate::header::Header;
use octets::checksum::checksum;
use octets::writer::Writer;
use refusals::Refusal;

fn header_array(header: Header, size: u8) -> [u8; 24]
    requires { size ≤ 231 }
    ensures { result ≡ header_bytes header size }
{
    let [_, _, d0, d1, d2, d3, d4, d5] = header.destination.to_be_bytes();
    let [_, _, s0, s1, s2, s3, s4, s5] = header.source.to_be_bytes();
    let [p0, p1] = header.pid.to_be_bytes();
    [
        0xCC,
        0x01,
        24 + size,
        d0,
        d1,
        d2,
        d3,
        d4,
        d5,
        s0,
        s1,
        s2,
        s3,
        s4,
        s5,
        header.transaction,
        header.kind,
        0,
        0,
        0,
        header.class,
        p0,
        p1,
        size,
    ]
}

pub fn write_packet(header: Header, payload: &[u8], buf: &mut [u8]) -> Result<usize, Refusal>
    requires { length payload.now ≤ 231 }
    ensures answer { result ≡ answered None (packet_of header payload.now) buf.old }
    ensures after { buf.new ≡ left_in None (packet_of header payload.now) buf.old }
{
    let size = payload.len();
    if buf.len() < 26 + size {
        return Err(Refusal::BufferTooShort);
    }
    let mut writer = Writer::new(buf);
    writer.put(&header_array(header, size as u8));
    writer.put(payload);
    let sum = checksum(writer.written());
    writer.put(&sum.to_be_bytes());
    Ok(writer.len())
}
