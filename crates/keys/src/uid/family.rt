// Unique identifiers as a family of keys.
ghost use Rattle.keys.specs.Uid.{uid_rank, uid_top};
ghost use Rattle.keys.specs.Uids.{same_from_rank, in_order_of_rank, rank_within, with_rank, uid_top_below_power, uid_levels_in_bounds, uid_addresses_in_bounds};

use crate::family::Family;
use crate::ordered::Ordered;
use crate::uid::Uid;

const HIGHEST_RANK: u64 = 0xFFFF_FFFF_FFFE;

impl Family for Uid {
    ghost rank = { uid_rank };

    ghost levels = { 48 };

    ghost top = { uid_top };

    ghost first = { 1 };

    ghost count = { 512 };

    ghost same_rank_same_key = { same_from_rank };

    ghost no_rank_above_top = { rank_within };

    ghost every_rank_up_to_top = { with_rank };

    ghost top_below_power = { uid_top_below_power };

    ghost levels_in_bounds = { uid_levels_in_bounds };

    ghost addresses_in_bounds = { uid_addresses_in_bounds };

    // Rank and number on the wire are told apart by a rule of the project, though they are the same here.
    fn to_rank(self) -> u64 {
        self.manufacturer as u64 * 0x1_0000_0000 + self.device as u64
    }

    fn from_rank(n: u64) -> Option<Uid> {
        if n > HIGHEST_RANK {
            return None;
        }
        Some(Uid {
            manufacturer: (n / 0x1_0000_0000) as u16,
            device: (n % 0x1_0000_0000) as u32,
        })
    }

    fn highest_rank() -> u64 {
        HIGHEST_RANK
    }

    fn first_address() -> u16 {
        1
    }

    fn address_count() -> u16 {
        512
    }
}

impl Ordered for Uid {
    ghost ordered_by_rank = { in_order_of_rank };
}
