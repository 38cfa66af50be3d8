// The interface of a line. What it means is said by `means`, and each function says what it does to that and answers of it.
ghost use Rattle.std.specs.Prelude.{◌≡◌};
ghost use Rattle.lines.specs.Meaning.{Meaning, Sound};
ghost use Rattle.lines.specs.Rules.{roused, rested, Probed, hush_answer, hushed, query_answer, set_answer, addressed};

use crate::answers::{Footprint, ProbeAnswer};
use keys::address::Address;
use keys::family::Family;
use keys::range::Range;

pub trait Line {
    type Key: Family;

    ghost means: { Self → Meaning Self.Key };

    // Whether the line is live; otherwise it is shut.
    fn live(&self) -> bool
        ensures { result ≡ (means self.now).live };

    // Makes the line live and wakes every fixture.
    fn rouse(&mut self)
        ensures { means self.new ≡ roused (means self.old) };

    // Shuts the line.
    fn rest(&mut self)
        ensures { means self.new ≡ rested (means self.old) };

    // Asks who is awake in a range of keys.
    fn probe(&mut self, range: Range<Self::Key>) -> ProbeAnswer<Self::Key>
        ensures same { means self.new ≡ means self.old }
        ensures answer { Probed Self.Key.Family.rank (means self.old) range result };

    // Asks one key to take no more part in the search. Answers whether it replied.
    fn hush(&mut self, key: Self::Key) -> bool
        ensures answer { result ≡ hush_answer (means self.old) key }
        ensures after { means self.new ≡ hushed Self.Key.Family.rank (means self.old) key };

    // Asks one key for its width and address.
    fn query(&mut self, key: Self::Key) -> Option<Footprint>
        ensures same { means self.new ≡ means self.old }
        ensures answer { result ≡ query_answer (means self.old) key };

    // Gives one key an address. Answers whether it was taken.
    fn set(&mut self, key: Self::Key, address: Address) -> bool
        ensures answer { result ≡ set_answer Self.Key.Family.first Self.Key.Family.count (means self.old) key address }
        ensures after { means self.new ≡ addressed Self.Key.Family.rank Self.Key.Family.first Self.Key.Family.count (means self.old) key address };

    ghost sound: { (line : Self) → Sound Self.Key.Family.first Self.Key.Family.count (means line) };
}
