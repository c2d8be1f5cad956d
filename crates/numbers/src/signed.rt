// The parts of a signed number and the difference of two unsigned ones. All sums are worked out between these.
ghost use Rattle.std.specs.Prelude.{◌≡◌, ◌≤◌, ◌<◌, ◌^◌};
ghost use Rattle.numbers.specs.Signed.{above, below, difference_answer};

#[tactic(auto, unfolding(crate::specs::Signed::above))]
pub fn above(x: i64) -> u64
    ensures { (result ≡ above x) × (result < 2 ^ 63) }
{
    x.max(0).unsigned_abs()
}

#[tactic(auto, unfolding(crate::specs::Signed::below))]
pub fn below(x: i64) -> u64
    ensures { (result ≡ below x) × (result ≤ 2 ^ 63) }
{
    x.min(0).unsigned_abs()
}

// a − b; 0 where either is past the greatest signed number, and no Option: the quantities pass it on, and the functions over them
// are proved to stay below.
#[tactic(auto, unfolding(crate::specs::Signed::difference_answer))]
pub fn difference(a: u64, b: u64) -> i64
    ensures { result ≡ difference_answer a b }
{
    match (i64::try_from(a), i64::try_from(b)) {
        (Ok(a), Ok(b)) => a - b,
        _ => 0,
    }
}
