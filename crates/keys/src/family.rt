// A family of keys: the keys that can be fitted to one kind of line, ordered by rank, and the addresses that
// its fixtures can be given.
ghost use Rattle.std.specs.Prelude.{◌≡◌, ℕ, ◌^◌, ◌<◌, ◌≤◌};
ghost use Rattle.keys.specs.Family.{AtRank};

pub trait Family: Copy {
    // The place of a key among the keys of the family, counted from 0.
    ghost rank: { Self → ℕ };

    // L: how often all keys can be halved.
    ghost levels: { ℕ };

    // TOP: the highest rank.
    ghost top: { ℕ };

    // FIRST: the lowest address that a fixture can have.
    ghost first: { ℕ };

    // COUNT: how many addresses there are, from FIRST on.
    ghost count: { ℕ };

    fn to_rank(self) -> u64
        ensures { result ≡ rank self };

    // The key of a rank; none above TOP.
    fn from_rank(n: u64) -> Option<Self>
        ensures { AtRank rank top n result };

    fn highest_rank() -> u64
        ensures { result ≡ top };

    fn first_address() -> u16
        ensures { result ≡ first };

    fn address_count() -> u16
        ensures { result ≡ count };

    ghost same_rank_same_key: { (x y : Self) → rank x ≡ rank y → x ≡ y };

    ghost no_rank_above_top: { (x : Self) → rank x ≤ top };

    ghost every_rank_up_to_top: { (n : ℕ) → n ≤ top → (x : Self) × (rank x ≡ n) };

    ghost top_below_power: { top < 2 ^ levels };

    ghost levels_in_bounds: { (1 ≤ levels) × (levels ≤ 48) };

    ghost addresses_in_bounds: { (first ≤ 512) × (count ≤ 512) };
}
