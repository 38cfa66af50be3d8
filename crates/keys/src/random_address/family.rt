// Random addresses as a family of keys.
ghost use Rattle.keys.specs.RandomAddress.{random_rank, random_top};
ghost use Rattle.keys.specs.RandomAddresses.{same_from_rank, in_order_of_rank, rank_within, with_rank, random_top_below_power, random_levels_in_bounds, random_addresses_in_bounds};

use crate::family::Family;
use crate::ordered::Ordered;
use crate::random_address::RandomAddress;

const HIGHEST_RANK: u64 = 0xFF_FFFF;

impl Family for RandomAddress {
    ghost rank = { random_rank };

    ghost levels = { 24 };

    ghost top = { random_top };

    ghost first = { 0 };

    ghost count = { 64 };

    ghost same_rank_same_key = { same_from_rank };

    ghost no_rank_above_top = { rank_within };

    ghost every_rank_up_to_top = { with_rank };

    ghost top_below_power = { random_top_below_power };

    ghost levels_in_bounds = { random_levels_in_bounds };

    ghost addresses_in_bounds = { random_addresses_in_bounds };

    // Rank and number on the wire are told apart by a rule of the project, though they are the same here.
    fn to_rank(self) -> u64 {
        self.value as u64
    }

    fn from_rank(n: u64) -> Option<RandomAddress> {
        if n > HIGHEST_RANK {
            return None;
        }
        Some(RandomAddress { value: n as u32 })
    }

    fn highest_rank() -> u64 {
        HIGHEST_RANK
    }

    fn first_address() -> u16 {
        0
    }

    fn address_count() -> u16 {
        64
    }
}

impl Ordered for RandomAddress {
    ghost ordered_by_rank = { in_order_of_rank };
}
