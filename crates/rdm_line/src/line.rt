// An RDM line: the fixtures that are fitted to it, how their replies meet, and whether it is live.
ghost use Rattle.std.specs.Prelude.{◌≡◌, ◌≤◌, true, take};
ghost use Rattle.rdm_line.specs.Table.{keys_distinct, all_sound, muted_unless};

use crate::mode::Mode;
use fixtures::fixture::Fixture;

// How many fixtures can be fitted to a line.
pub const PLACES: usize = 128;

// An array with a count by a rule of the project: the table is made of empty places, in a plain struct.
#[derive(Drop)]
pub struct RdmLine {
    // The fitted fixtures are the first so many; the places behind them are empty.
    fixtures: [Fixture; PLACES],
    count: usize,
    mode: Mode,
    live: bool,
    ghost count_in_bounds: { count ≤ 128 },
    ghost no_key_twice: { keys_distinct (take count fixtures) ≡ true },
    ghost fixtures_sound: { all_sound (take count fixtures) ≡ true },
    ghost muted_while_shut: { muted_unless live (take count fixtures) ≡ true },
}

pub mod as_line;
pub mod asking;
pub mod making;
