// What a book has of a fixture.
ghost use Rattle.std.specs.Prelude.{◌≡◌};
ghost use Rattle.records.specs.Rows.{new_record};

use keys::address::Address;

#[derive(Clone, Copy)]
pub struct Record<K> {
    pub key: K,
    // How many addresses it takes.
    pub width: u16,
    // From which one on.
    pub address: Option<Address>,
}

impl<K> Record<K> {
    // A key that was just found: of width 0, and without an address.
    pub fn new(key: K) -> Record<K>
        ensures { result ≡ new_record key }
    {
        Record {
            key,
            width: 0,
            address: None,
        }
    }
}
