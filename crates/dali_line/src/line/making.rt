// How a line is made.
ghost use Rattle.std.specs.Prelude.{◌≡◌, ◌≤◌, length, IfOk};
ghost use Rattle.std.specs.List.{list_all};
ghost use Rattle.dali_line.specs.Making.{is_one, Fitted, fresh_meaning, Made};
ghost use Rattle.dali_line.specs.Meaning.{line_meaning};

use crate::line::{DaliLine, PLACES};
use crate::wire::Wire;
use arrayvec::ArrayVec;
use keys::random_address::RandomAddress;
use lines::twice::has_twice;
use refusals::Refusal;
use units::bus::Bus;
use units::unit::Unit;

fn all_are_one(widths: &[u32]) -> bool
    ensures { result ≡ list_all is_one widths.now }
{
    widths.iter().all(|width| *width == 1)
}

// A fresh unit of each key; none if a number is no key.
fn fit(numbers: &[u64]) -> Option<ArrayVec<Unit, PLACES>>
    requires { length numbers.now ≤ 64 }
    ensures { Fitted numbers.now result }
{
    let mut units = ArrayVec::new();
    for number in numbers {
        units.push(Unit::fresh(RandomAddress::from_number(*number)?));
    }
    Some(units)
}

impl DaliLine {
    // A line of units that have keys with these numbers, in their order. Every unit takes one address, and there is one
    // mode, 0. Refuses unequal lists (10); then more than 64 units, another mode, another width or a number that is no key
    // (11); then a key that comes twice (12). Two lists, since unequal ones have a refusal of their own.
    pub fn new(keys: &[u64], widths: &[u32], mode: u32) -> Result<DaliLine, Refusal>
        ensures answer { Made keys.now widths.now mode result }
        ensures means { IfOk result (λ line. line_meaning line ≡ fresh_meaning keys.now) }
    {
        if keys.len() != widths.len() {
            return Err(Refusal::Malformed);
        }
        if keys.len() > PLACES || mode > 0 || !all_are_one(widths) {
            return Err(Refusal::AboveLimit);
        }
        let units = fit(keys).ok_or(Refusal::AboveLimit)?;
        if has_twice(keys) {
            return Err(Refusal::KeyTwice);
        }
        let bus = Bus::fresh();
        Ok(DaliLine {
            wire: Wire { units, bus },
            live: false,
        })
    }
}
