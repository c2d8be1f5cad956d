// Unforced watts by their parts above and below zero; all sums are worked out on the parts.
ghost use Rattle.std.specs.Prelude.{◌≡◌, ◌≤◌, ◌<◌, ◌^◌, max, pos, nat_abs};
ghost use Rattle.numbers.specs.Signed.{above, below, difference_answer};
ghost use Rattle.capacity.specs.Quantities.{unforced_watts};
ghost use Rattle.capacity.specs.Shares.{excess_watts};
ghost use Rattle.capacity.specs.Shortfall.{limited};

use crate::UnforcedWatts;
use numbers::signed;

impl UnforcedWatts {
    // The watts above zero: of a net, the shortfall.
    pub fn above(self) -> u64
        ensures { (result ≡ above self.0) × (result < 2 ^ 63) }
    {
        signed::above(self.0)
    }

    // The watts below zero: of a net, the excess.
    pub fn below(self) -> u64
        ensures { (result ≡ below self.0) × (result ≤ 2 ^ 63) }
    {
        signed::below(self.0)
    }

    // The same where it is below zero, which is an excess; else 0.
    #[tactic(auto, using(crate::proofs::Nets::excess_is, crate::proofs::Nets::no_excess))]
    pub(crate) fn excess(self) -> Self
        ensures { result ≡ excess_watts (below self.0) }
    {
        if 0 < self.below() {
            self
        } else {
            UnforcedWatts(0)
        }
    }

    pub(crate) fn size(self) -> u64
        ensures { (result ≡ nat_abs self.0) × (result ≤ 2 ^ 63) }
    {
        self.0.unsigned_abs()
    }

    // `as`, since `From` does not narrow and `TryFrom` would have an error to answer: by the clause nothing is lost.
    pub(crate) fn new(watts: u64) -> Self
        requires { watts < 2 ^ 63 }
        ensures { result ≡ unforced_watts (pos watts) }
    {
        UnforcedWatts(watts as i64)
    }

    // a − b; 0 where either is past the greatest signed number, as `signed::difference` says.
    pub(crate) fn difference(a: u64, b: u64) -> Self
        ensures { result ≡ unforced_watts (difference_answer a b) }
    {
        UnforcedWatts(signed::difference(a, b))
    }

    // The higher of two that are not below zero. A method here and no order of the type: outside this crate, watts that could be
    // compared would be read.
    #[tactic(auto, unfolding(numbers::specs::Signed::above))]
    pub(crate) fn higher(self, other: Self) -> Self
        ensures { result ≡ unforced_watts (pos (max (above self.0) (above other.0))) }
    {
        UnforcedWatts::new(self.above().max(other.above()))
    }

    // A shortfall above the limit becomes the limit; an excess, which is below zero, has none.
    #[tactic(auto, unfolding(crate::specs::Shortfall::limited))]
    pub(crate) fn limited(self, limit: Self) -> Self
        ensures { result ≡ unforced_watts (limited (above limit.0) self.0) }
    {
        let most = limit.above();
        if most < self.above() {
            UnforcedWatts::new(most)
        } else {
            self
        }
    }
}
