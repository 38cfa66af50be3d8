// The DALI line.
ghost use Rattle.std.specs.Prelude.{◌≡◌, true, false, map};
ghost use Rattle.lines.specs.Twice.{has_twice};
ghost use Rattle.dali_line.specs.Table.{unit_number, all_fit};

use crate::wire::Wire;

// How many units a line has at most.
pub const PLACES: usize = 64;

// Whether the line is live is a flag of its own, since a line without units has none to show it.
#[derive(Drop)]
pub struct DaliLine {
    wire: Wire,
    live: bool,
    ghost distinct: { has_twice (map unit_number wire.units.items) ≡ false },
    ghost states: { all_fit live wire.units.items ≡ true },
}

pub mod calls;
pub mod making;
