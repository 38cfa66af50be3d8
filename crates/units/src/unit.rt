// A DALI unit.
ghost use Rattle.std.specs.Prelude.{◌≡◌};
ghost use Rattle.units.specs.Unit.{fresh_unit};

use crate::state::State;
use dali::short_address::ShortAddress;
use keys::random_address::RandomAddress;

#[derive(Clone, Copy)]
pub struct Unit {
    pub key: RandomAddress,
    pub address: Option<ShortAddress>,
    pub state: State,
}

impl Unit {
    pub fn fresh(key: RandomAddress) -> Unit
        ensures { result ≡ fresh_unit key }
    {
        Unit {
            key,
            address: None,
            state: State::Disabled,
        }
    }
}

// What stands in the places of a vector of fixed capacity that are not in use.
impl Default for Unit {
    ghost is_default = { λ u. (u.key.value ≡ 0) × (u ≡ fresh_unit u.key) };

    fn default() -> Unit {
        Unit::fresh(RandomAddress { value: 0 })
    }
}

pub mod reaction;
