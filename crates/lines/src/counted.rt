// A line that counts what it is asked.
ghost use Rattle.std.specs.Prelude.{◌≡◌};
ghost use Rattle.lines.specs.Counted.{SameCounts, ProbeCounted, HushCounted};
ghost use Rattle.lines.specs.Meaning.{Meaning, Sound};
ghost use Rattle.lines.specs.Rules.{roused, rested, Probed, hush_answer, hushed, query_answer, set_answer, addressed};
ghost use Rattle.std.proofs.Common.{rules};

use crate::answers::{Footprint, ProbeAnswer};
use crate::line::Line;
use keys::address::Address;
use keys::range::Range;

// Probes and hushes are counted apart. The counts stay at the highest number once they have reached it. They are no part of what the line means.
#[derive(Drop)]
pub struct Counted<L> {
    pub line: L,
    pub probes: u32,
    pub hushes: u32,
}

impl<L: Line> Counted<L> {
    pub fn new(line: L) -> Counted<L>
        ensures { result ≡ record { line = line; probes = 0; hushes = 0 } }
    {
        Counted {
            line,
            probes: 0,
            hushes: 0,
        }
    }
}

impl<L: Line> Line for Counted<L> {
    type Key = L::Key;

    ghost means = { λ c. L.Line.means c.line };

    ghost sound = { Prim.search rules };

    fn live(&self) -> bool
        ensures { result ≡ (L.Line.means self.now.line).live }
    {
        self.line.live()
    }

    fn rouse(&mut self)
        ensures after { L.Line.means self.new.line ≡ roused (L.Line.means self.old.line) }
        ensures counts { SameCounts self.old self.new }
    {
        self.line.rouse();
    }

    fn rest(&mut self)
        ensures after { L.Line.means self.new.line ≡ rested (L.Line.means self.old.line) }
        ensures counts { SameCounts self.old self.new }
    {
        self.line.rest();
    }

    fn probe(&mut self, range: Range<L::Key>) -> ProbeAnswer<L::Key>
        ensures same { L.Line.means self.new.line ≡ L.Line.means self.old.line }
        ensures answer { Probed L.Key.Family.rank (L.Line.means self.old.line) range result }
        ensures counts { ProbeCounted self.old self.new }
    {
        self.probes = self.probes.saturating_add(1);
        self.line.probe(range)
    }

    fn hush(&mut self, key: L::Key) -> bool
        ensures answer { result ≡ hush_answer (L.Line.means self.old.line) key }
        ensures after { L.Line.means self.new.line ≡ hushed L.Key.Family.rank (L.Line.means self.old.line) key }
        ensures counts { HushCounted self.old self.new }
    {
        self.hushes = self.hushes.saturating_add(1);
        self.line.hush(key)
    }

    fn query(&mut self, key: L::Key) -> Option<Footprint>
        ensures same { L.Line.means self.new.line ≡ L.Line.means self.old.line }
        ensures answer { result ≡ query_answer (L.Line.means self.old.line) key }
        ensures counts { SameCounts self.old self.new }
    {
        self.line.query(key)
    }

    fn set(&mut self, key: L::Key, address: Address) -> bool
        ensures answer { result ≡ set_answer L.Key.Family.first L.Key.Family.count (L.Line.means self.old.line) key address }
        ensures after { L.Line.means self.new.line ≡ addressed L.Key.Family.rank L.Key.Family.first L.Key.Family.count (L.Line.means self.old.line) key address }
        ensures counts { SameCounts self.old self.new }
    {
        self.line.set(key, address)
    }
}
