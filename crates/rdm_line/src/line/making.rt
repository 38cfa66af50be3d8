// The making of a line, from the numbers of its keys, their widths and the number of its mode.
ghost use Rattle.std.specs.Prelude.{◌≡◌, ◌≤◌, length};
ghost use Rattle.rdm_line.specs.Making.{NewFixture, NewTable, Made};

use crate::line::{PLACES, RdmLine};
use crate::mode::Mode;
use fixtures::fixture::Fixture;
use keys::uid::Uid;
use lines::twice::has_twice;
use refusals::Refusal;

// How many slots there are, and so how many a fixture can take.
const WIDEST: u32 = 512;

// A place to which no fixture is fitted.
const EMPTY: Fixture = Fixture {
    key: Uid {
        manufacturer: 0,
        device: 0,
    },
    width: 0,
    address: None,
    muted: false,
};

// A fresh fixture of this number and width; none if the number is no key or the width above the limit.
fn new_fixture(number: u64, width: u32) -> Option<Fixture>
    ensures { NewFixture number width result }
{
    if width > WIDEST {
        return None;
    }
    let key = Uid::from_number(number)?;
    Some(Fixture::fresh(key, width as u16))
}

// A table with a fresh fixture for each key and width in its first places; none if there cannot be one of them. Two lists, as
// they were given.
fn fit(keys: &[u64], widths: &[u32]) -> Option<[Fixture; PLACES]>
    requires as_many { length keys.now ≡ length widths.now }
    requires places_for_all { length keys.now ≤ 128 }
    ensures { NewTable keys.now widths.now result }
{
    let mut places = [EMPTY; PLACES];
    // By index: once a loop over `iter_mut().zip(..)` is done, its proof knows no element of the table.
    for (i, (key, width)) in keys.iter().zip(widths).enumerate() {
        places[i] = new_fixture(*key, *width)?;
    }
    Some(places)
}

impl RdmLine {
    // A live line with a fresh fixture for each key, in this order. Refuses unequal lists (10); then more than 128 fixtures,
    // a mode above 3, a number that is no key or a width above 512 (11); then a key twice (12). Two lists, since unequal
    // ones have a refusal of their own.
    pub fn new(keys: &[u64], widths: &[u32], mode: u32) -> Result<RdmLine, Refusal>
        ensures { Made keys.now widths.now mode result }
    {
        if keys.len() != widths.len() {
            return Err(Refusal::Malformed);
        }
        let mode = Mode::try_from(mode)?;
        if keys.len() > PLACES {
            return Err(Refusal::AboveLimit);
        }
        let fixtures = fit(keys, widths).ok_or(Refusal::AboveLimit)?;
        if has_twice(keys) {
            return Err(Refusal::KeyTwice);
        }
        Ok(RdmLine {
            fixtures,
            count: keys.len(),
            mode,
            live: true,
        })
    }
}
