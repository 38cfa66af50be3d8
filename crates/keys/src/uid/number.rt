// The 48-bit number that stands for a unique identifier on the wire, in text and where replies collide.
ghost use Rattle.std.specs.Prelude.{◌≡◌, nat_lt};
ghost use Rattle.keys.specs.Uid.{uid_number, uid_rank, Numbered};

use crate::uid::Uid;

// The broadcast: the one 48-bit number that is no key.
pub const BROADCAST: u64 = 0xFFFF_FFFF_FFFF;

impl Uid {
    // The manufacturer stands first. Methods and no `From` and `TryFrom`: a key has two numbers, this one and its rank, and
    // `u64::from(key)` would not say which.
    pub fn number(self) -> u64
        ensures value { result ≡ uid_number self }
        ensures ordered_as_keys { (other : Uid) → nat_lt (uid_number self) (uid_number other) ≡ nat_lt (uid_rank self) (uid_rank other) }
    {
        self.manufacturer as u64 * 0x1_0000_0000 + self.device as u64
    }

    // Which numbers are keys is decided here and nowhere else.
    pub fn from_number(number: u64) -> Option<Uid>
        ensures { Numbered number result }
    {
        if number >= BROADCAST {
            return None;
        }
        Some(Uid {
            manufacturer: (number / 0x1_0000_0000) as u16,
            device: (number % 0x1_0000_0000) as u32,
        })
    }
}
