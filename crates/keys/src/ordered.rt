// Families whose keys `<`, `==` and `min` compare too. Nothing generic asks for it: `is_below` and `is_same` do for every family.
ghost use Rattle.std.specs.Prelude.{◌≡◌};
ghost use Rattle.std.specs.Ordering.{nat_cmp};

use crate::family::Family;

pub trait Ordered: Family + Ord {
    // Keys compare as their ranks do.
    ghost ordered_by_rank: { (x y : Self) → Self.Ord.cmp x y ≡ nat_cmp (Self.Family.rank x) (Self.Family.rank y) };
}
