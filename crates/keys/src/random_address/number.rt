// The 24-bit number that stands for a random address on the wire and in text.
ghost use Rattle.std.specs.Prelude.{◌≡◌, nat_lt};
ghost use Rattle.keys.specs.RandomAddress.{random_number, random_rank, RandomNumbered};

use crate::random_address::RandomAddress;

impl RandomAddress {
    // Methods and no `From` and `TryFrom`: a key has two numbers, this one and its rank, and `u64::from(key)` would not say
    // which.
    pub fn number(self) -> u64
        ensures value { result ≡ random_number self }
        ensures ordered_as_keys { (other : RandomAddress) → nat_lt (random_number self) (random_number other) ≡ nat_lt (random_rank self) (random_rank other) }
    {
        self.value as u64
    }

    // Which numbers are keys is decided here and nowhere else.
    pub fn from_number(number: u64) -> Option<RandomAddress>
        ensures { RandomNumbered number result }
    {
        if number > 0xFF_FFFF {
            return None;
        }
        Some(RandomAddress {
            value: number as u32,
        })
    }
}
