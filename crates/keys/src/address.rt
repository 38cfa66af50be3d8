// The address of a fixture: the slot at which its span begins.
ghost use Rattle.std.specs.Prelude.{◌≡◌};
ghost use Rattle.keys.specs.Address.{in_family};

use crate::family::Family;

#[derive(Clone, Copy, PartialEq, Eq)]
pub struct Address {
    pub slot: u16,
}

// Whether an address is one of a family's.
pub fn is_in_family<K: Family>(address: Address) -> bool
    ensures { result ≡ in_family K.first K.count address }
{
    let first = K::first_address();
    first <= address.slot && address.slot - first < K::address_count()
}
