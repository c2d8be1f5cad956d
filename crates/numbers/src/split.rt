// The split, one for all who split: a unit's shortfall over parties, an area's charges over ceilings, and what is left of
// them over obligations.
ghost use Rattle.std.specs.Prelude.{◌≡◌, ◌&&◌, ◌-◌, ◌*◌, ◌^◌, ◌<◌, min, ltb, length};
ghost use Rattle.numbers.specs.Sum.{sum_below, capped};
ghost use Rattle.numbers.specs.Lists.{list_below, element};
ghost use Rattle.numbers.specs.Split.{split, split_answer};

// The sum of the weights, or the greatest number where that does not fit.
#[tactic(auto, using(crate::proofs::Sums::sum_one_more), unfolding(crate::specs::Sum::sum_below))]
pub fn capped_sum(weights: &[u64]) -> u64
    ensures { result ≡ capped weights.now }
{
    let mut sum: u64 = 0;
    for weight in weights {
        sum = sum.saturating_add(*weight);
    }
    sum
}

// Whether there is something to split, somebody to get it, and their product is below 2^63.
fn has_shares(amount: u64, z: u64) -> bool
    ensures { result ≡ (ltb 0 amount && (ltb 0 z && ltb (amount * z) (2 ^ 63))) }
{
    0 < amount && 0 < z && amount <= i64::MAX.unsigned_abs() / z
}

// Every place gets its share of an amount over weights of sum z.
fn distribute(amount: u64, weights: &[u64], z: u64, shares: &mut [u64])
    requires { (z ≡ sum_below (length weights.now) (element weights.now)) × (0 < z) × (amount * z < 2 ^ 63) }
    ensures { shares.new ≡ list_below (length shares.old) (split amount (length weights.now) (element weights.now)) }
{
    let mut sum: u64 = 0;
    let mut given: u64 = 0;
    for (k, share) in shares.iter_mut().enumerate() {
        sum += weights.get(k).copied().unwrap_or(0);
        let next = amount * sum / z;
        *share = next - given;
        given = next;
    }
}

// Splits an amount over any number of weights: place k of `shares` gets the share of weight number k.
pub fn split(amount: u64, weights: &[u64], shares: &mut [u64])
    ensures { shares.new ≡ split_answer amount weights.now (length shares.old) }
{
    let z = capped_sum(weights);
    if has_shares(amount, z) {
        distribute(amount, weights, z, shares);
    } else {
        shares.fill(0);
    }
}

// The same by value, with as many shares as weights.
pub fn split_array<const N: usize>(amount: u64, weights: [u64; N]) -> [u64; N]
    ensures { result ≡ split_answer amount weights.entry N }
{
    let mut shares = [0; N];
    split(amount, &weights, &mut shares);
    shares
}
