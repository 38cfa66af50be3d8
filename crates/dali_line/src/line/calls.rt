// The DALI line as a line: every function speaks to the fitted units by frames, and hears their replies.
ghost use Rattle.std.specs.Prelude.{◌≡◌};
ghost use Rattle.keys.specs.RandomAddress.{random_rank};
ghost use Rattle.lines.specs.Rules.{roused, rested, Probed, hush_answer, hushed, query_answer, set_answer, addressed};
ghost use Rattle.dali_line.specs.Calls.{LeftByRouse, LeftByRest, LeftByProbe, probe_answer, LeftByHush, LeftByQuery, LeftBySet};
ghost use Rattle.dali_line.specs.Meaning.{footprint_at, line_meaning};
ghost use Rattle.dali_line.specs.Meanings;

use crate::line::DaliLine;
use dali::frame::Frame;
use dali::short_address::ShortAddress;
use keys::address::Address;
use keys::random_address::RandomAddress;
use keys::range::Range;
use lines::answers::{Footprint, ProbeAnswer};
use lines::line::Line;

impl Line for DaliLine {
    type Key = RandomAddress;

    ghost means = { line_meaning };

    ghost sound = { Meanings.sound };

    fn live(&self) -> bool
        ensures { result ≡ (line_meaning self.now).live }
    {
        self.live
    }

    fn rouse(&mut self)
        ensures after { line_meaning self.new ≡ roused (line_meaning self.old) }
        ensures table_and_bus_after { LeftByRouse self.old self.new }
    {
        self.wire.enable();
        self.live = true;
    }

    fn rest(&mut self)
        ensures after { line_meaning self.new ≡ rested (line_meaning self.old) }
        ensures table_and_bus_after { LeftByRest self.old self.new }
    {
        self.wire.send(Frame::Terminate);
        self.live = false;
    }

    // The lower end is not looked at: units compare with the search address alone.
    fn probe(&mut self, range: Range<RandomAddress>) -> ProbeAnswer<RandomAddress>
        ensures same { line_meaning self.new ≡ line_meaning self.old }
        ensures answer { Probed random_rank (line_meaning self.old) range result }
        ensures garbled_exactly_if_an_enabled_unit_is_at_or_below_hi { result ≡ probe_answer self.old range }
        ensures table_and_bus_after { LeftByProbe range self.old self.new }
    {
        if self.wire.compare(range.hi) {
            ProbeAnswer::Garbled
        } else {
            ProbeAnswer::Silent
        }
    }

    fn hush(&mut self, key: RandomAddress) -> bool
        ensures answer { result ≡ hush_answer (line_meaning self.old) key }
        ensures after { line_meaning self.new ≡ hushed random_rank (line_meaning self.old) key }
        ensures table_and_bus_after { LeftByHush key self.old self.new }
    {
        self.wire.withdraw(key)
    }

    fn query(&mut self, key: RandomAddress) -> Option<Footprint>
        ensures same { line_meaning self.new ≡ line_meaning self.old }
        ensures answer { result ≡ query_answer (line_meaning self.old) key }
        ensures table_and_bus_after { LeftByQuery key self.old self.new }
    {
        self.wire.query_address(key).map(footprint)
    }

    // An address outside the family is not sent: B7 with 127 in the place of the address would delete it.
    fn set(&mut self, key: RandomAddress, address: Address) -> bool
        ensures answer { result ≡ set_answer 0 64 (line_meaning self.old) key address }
        ensures after { line_meaning self.new ≡ addressed random_rank 0 64 (line_meaning self.old) key address }
        ensures table_and_bus_after { LeftBySet key address self.old self.new }
    {
        // A match: one arm changes the line, and a proof hardly learns what a closure has changed.
        match ShortAddress::try_from(address) {
            Ok(short) => self.wire.program(key, short),
            Err(_) => false,
        }
    }
}

// A unit takes one address.
fn footprint(address: Option<ShortAddress>) -> Footprint
    ensures { result ≡ footprint_at address }
{
    Footprint {
        width: 1,
        address: address.map(Address::from),
    }
}
