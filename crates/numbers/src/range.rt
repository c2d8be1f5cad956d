// Ranges of numbers, both ends included.
ghost use Rattle.std.specs.Prelude.{◌≡◌};
ghost use Rattle.numbers.specs.Range.{within};

// Whether x is one of first to last.
#[tactic(auto, unfolding(crate::specs::Range::within))]
pub fn within(first: u64, last: u64, x: u64) -> bool
    ensures { result ≡ within first last x }
{
    (first..=last).contains(&x)
}
