// The order of the keys of a family, which is that of their ranks.
ghost use Rattle.std.specs.Prelude.{◌≡◌, ◌+◌, ◌/◌, ◌≤◌, ◌==◌, nat_lt};
ghost use Rattle.keys.specs.Family.{Next};

use crate::family::Family;

// The key of a rank that there is.
fn at_rank<K: Family>(n: u64) -> K
    requires { n ≤ K.top }
    ensures { K.rank result ≡ n }
{
    K::from_rank(n).unwrap()
}

pub fn lowest<K: Family>() -> K
    ensures { K.rank result ≡ 0 }
{
    at_rank(0)
}

pub fn highest<K: Family>() -> K
    ensures { K.rank result ≡ K.top }
{
    at_rank(K::highest_rank())
}

// The key of half the sum of the ranks, rounded down.
pub fn half<K: Family>(lo: K, hi: K) -> K
    ensures { K.rank result ≡ (K.rank lo + K.rank hi) / 2 }
{
    at_rank((lo.to_rank() + hi.to_rank()) / 2)
}

// The key of the next rank; none after the highest.
pub fn after<K: Family>(key: K) -> Option<K>
    ensures { Next K.rank K.top key result }
{
    K::from_rank(key.to_rank() + 1)
}

pub fn is_below<K: Family>(key: K, other: K) -> bool
    ensures { result ≡ nat_lt (K.rank key) (K.rank other) }
{
    key.to_rank() < other.to_rank()
}

pub fn is_same<K: Family>(key: K, other: K) -> bool
    ensures { result ≡ (K.rank key == K.rank other) }
{
    key.to_rank() == other.to_rank()
}
