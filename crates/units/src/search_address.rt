// The search address, which all units share: three bytes, each set by a frame of its own.
ghost use Rattle.std.specs.Prelude.{◌≡◌};
ghost use Rattle.units.specs.SearchAddress.{search_number};

#[derive(Clone, Copy)]
pub struct SearchAddress {
    pub high: u8,
    pub middle: u8,
    pub low: u8,
}

impl SearchAddress {
    // The 24-bit number, to be compared with the numbers of keys, and named as theirs are.
    pub fn number(self) -> u64
        ensures { result ≡ search_number self }
    {
        u64::from_be_bytes([0, 0, 0, 0, 0, self.high, self.middle, self.low])
    }
}
