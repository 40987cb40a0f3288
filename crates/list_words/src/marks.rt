// Correlations held in 32 bits against the mark.
ghost use Rattle.std.specs.Prelude.{◌≡◌, List, map, ℕ, ◌≤◌, length, ℤ, nat_abs};
ghost use Rattle.laws.specs.ListCost.{All};
ghost use Rattle.correlations.specs.Folding.{wrapped};
ghost use Rattle.list_words.specs.Hits.{counts, hits};

// The signed number that these bits stand for.
pub(crate) fn value_of(v: u32) -> i32
    ensures { (z : ℤ) → nat_abs z ≤ 2096128 → v ≡ wrapped z → result ≡ z }
{
    v.cast_signed()
}

// 1 where a correlation is at the mark or above, else 0.
pub(crate) fn reached(v: u32, mark: i32) -> usize
    ensures { (result ≤ 1) × ((z : ℤ) → nat_abs z ≤ 2096128 → v ≡ wrapped z → result ≡ counts mark z) }
{
    usize::from(mark <= value_of(v))
}

// How many of the correlations are at the mark or above.
pub(crate) fn count_block(bins: &[u32], mark: i32) -> usize
    ensures { (result ≤ length bins.now) × ((zs : List ℤ) (q : ℕ) → All (λ (z : ℤ). nat_abs z ≤ 2096128) zs
        → bins.now ≡ map wrapped zs → result ≡ length (hits mark q zs)) }
{
    let mut found = 0;
    for v in bins {
        found += reached(*v, mark);
    }
    found
}
