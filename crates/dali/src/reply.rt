// The byte that a unit replies with.
ghost use Rattle.std.specs.Prelude.{◌≡◌};
ghost use Rattle.dali.specs.ShortAddress.{stored_byte, StoredAt};

use crate::short_address::ShortAddress;

// The reply to COMPARE.
pub const YES: u8 = 0xFF;

// The reply of a unit that has no address.
const MASK: u8 = 0xFF;

// The reply to QUERY SHORT ADDRESS.
pub fn address_reply(address: Option<ShortAddress>) -> u8
    ensures { result ≡ stored_byte address }
{
    address.map_or(MASK, ShortAddress::byte)
}

// What a unit told of its address; none if it is no such reply.
pub fn read_address_reply(byte: u8) -> Option<Option<ShortAddress>>
    ensures { StoredAt byte result }
{
    if byte == MASK {
        return Some(None);
    }
    ShortAddress::from_byte(byte).map(Some)
}
