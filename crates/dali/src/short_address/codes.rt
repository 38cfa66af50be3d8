// Short addresses as slots, and as the byte that stands for them in a frame.
ghost use Rattle.std.specs.Prelude.{◌≡◌};
ghost use Rattle.dali.specs.ShortAddress.{short_byte, ShortTried, SlotOf, ShortAt};

use crate::short_address::ShortAddress;
use keys::address::{Address, is_in_family};
use keys::random_address::RandomAddress;
use refusals::Refusal;

// The short address of a slot. Refuses one outside the family (3).
impl TryFrom<Address> for ShortAddress {
    type Error = Refusal;

    ghost try_from_gives = { ShortTried };

    fn try_from(address: Address) -> Result<ShortAddress, Refusal> {
        if !is_in_family::<RandomAddress>(address) {
            return Err(Refusal::AddressOutside);
        }
        Ok(ShortAddress {
            value: address.slot as u8,
        })
    }
}

impl From<ShortAddress> for Address {
    ghost from_gives = { SlotOf };

    fn from(short: ShortAddress) -> Address {
        Address {
            slot: u16::from(short.value),
        }
    }
}

impl ShortAddress {
    // The address in bits 1 to 6, and bit 0 set. No `From`, since the byte is not the number of the address.
    pub fn byte(self) -> u8
        ensures { result ≡ short_byte self }
    {
        2 * self.value + 1
    }

    // The address that a byte stands for; none if it stands for no address.
    pub fn from_byte(byte: u8) -> Option<ShortAddress>
        ensures { ShortAt byte result }
    {
        if byte % 2 == 0 || byte > 127 {
            return None;
        }
        Some(ShortAddress { value: byte / 2 })
    }
}
