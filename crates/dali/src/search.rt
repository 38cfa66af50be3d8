// The search address: three bytes that all units keep, set by three frames.
ghost use Rattle.std.specs.Prelude.{◌≡◌, None};
ghost use Rattle.keys.specs.RandomAddress.{random_number};
ghost use Rattle.dali.specs.Search.{search_frames, search_bytes};
ghost use Rattle.octets.specs.Writers.{answered, left_in};

use crate::frame::Frame;
use keys::random_address::RandomAddress;
use octets::buffer::write_bytes;
use refusals::Refusal;

// High byte first.
pub fn search_frames(key: RandomAddress) -> [Frame; 3]
    ensures { result ≡ search_frames (random_number key) }
{
    let [_, _, _, _, _, high, middle, low] = key.number().to_be_bytes();
    [
        Frame::SearchHigh(high),
        Frame::SearchMiddle(middle),
        Frame::SearchLow(low),
    ]
}

// Writes the three frames, one behind the other, and answers their length. Refuses a buffer that is too short (4), and
// then writes nothing.
pub fn write_search(key: RandomAddress, buf: &mut [u8]) -> Result<usize, Refusal>
    ensures answer { result ≡ answered None (search_bytes (random_number key)) buf.old }
    ensures after { buf.new ≡ left_in None (search_bytes (random_number key)) buf.old }
{
    let frames = search_frames(key).map(Frame::bytes);
    write_bytes(frames.as_flattened(), buf)
}
