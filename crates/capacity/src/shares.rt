// A unit's shares over the sixteen parties, and the parties' nets in an area.
ghost use Rattle.std.specs.Prelude.{◌≡◌, ◌*◌, ◌^◌, ◌<◌, pos, nat_abs, cond, eqb};
ghost use Rattle.numbers.specs.Sum.{sum_below};
ghost use Rattle.numbers.specs.Lists.{list_below, element};
ghost use Rattle.numbers.specs.Signed.{below};
ghost use Rattle.numbers.specs.Split.{with_sign, split_signed};
ghost use Rattle.capacity.specs.Quantities.{unforced_watts};
ghost use Rattle.capacity.specs.Shares.{shares_in_range, shares_answer, net_with, nets_answer, lowered, excess_watts, excess_answer, lowered_answer};

use crate::UnforcedWatts;
use crate::rating::{INSTALLED_MOST, WATT_DAYS_MOST};
use numbers::split::{capped_sum, split_array};
use std::array;

// The most watts of a net in size.
pub const NET_MOST: u64 = 160_000_000;

impl UnforcedWatts {
    // So many watts on the same side of zero.
    fn with_size(self, size: u64) -> Self
        ensures { size < 2 ^ 63 → result ≡ unforced_watts (with_sign self.0 size) }
    {
        if self.below() == 0 {
            UnforcedWatts::difference(size, 0)
        } else {
            UnforcedWatts::difference(0, size)
        }
    }

    // A shortfall or an excess split over the parties.
    fn split(self, weights: [u64; 16]) -> [Self; 16]
        requires { nat_abs self.0 * sum_below 16 (element weights) < 2 ^ 63 }
        ensures { result ≡ list_below 16 (λ p. unforced_watts (split_signed self.0 16 (element weights) p)) }
    {
        split_array(self.size(), weights).map(|size| self.with_size(size))
    }

    // Whether it, of a unit, and the parts of the unit's V are in range.
    fn can_be_split(self, parts: [u64; 16]) -> bool
        ensures { result ≡ shares_in_range self.0 (element parts) }
    {
        self.size() <= INSTALLED_MOST && capped_sum(&parts) <= WATT_DAYS_MOST
    }

    // A net with one share more; where either is past the bound 0, and no Option: the definition `net_with` gives 0 there. Those of
    // an area never are.
    #[tactic(auto, unfolding(crate::specs::Shares::net_with))]
    fn with_share(self, share: Self) -> Self
        ensures { result ≡ unforced_watts (net_with self.0 share.0) }
    {
        if self.size() <= NET_MOST && share.size() <= NET_MOST {
            UnforcedWatts::difference(self.above() + share.above(), self.below() + share.below())
        } else {
            UnforcedWatts(0)
        }
    }

    // An excess at its owner's place; nothing at another's.
    fn excess_at(self, owner: usize, p: usize) -> Self
        ensures { result ≡ excess_watts (cond (eqb p owner) (below self.0) 0) }
    {
        if p == owner {
            self.excess()
        } else {
            UnforcedWatts(0)
        }
    }

    // A net above zero, lowered by an excess to no less than zero; any other as it is.
    #[tactic(auto, using(crate::proofs::Nets::lowered_from, crate::proofs::Nets::lowered_no_further))]
    fn lowered(self, excess: Self) -> Self
        ensures { result ≡ unforced_watts (lowered (below excess.0) self.0) }
    {
        if 0 < self.above() {
            UnforcedWatts::new(self.above().saturating_sub(excess.below()))
        } else {
            self
        }
    }
}

// A unit's shares of its limited S, by its parties' watt-days; out of range it has none, and no Option: no unit of a book is.
#[tactic(auto, unfolding(crate::specs::Shares::shares_answer))]
pub fn unit_shares(shortfall: UnforcedWatts, parts: [u64; 16]) -> [UnforcedWatts; 16]
    ensures { result ≡ shares_answer shortfall.0 parts }
{
    if shortfall.can_be_split(parts) {
        shortfall.split(parts)
    } else {
        no_nets()
    }
}

// The excess of a ready unit, at its owner's place.
pub fn owner_excess(shortfall: UnforcedWatts, owner: usize) -> [UnforcedWatts; 16]
    ensures { result ≡ excess_answer shortfall.0 owner }
{
    array::from_fn(|p| shortfall.excess_at(owner, p))
}

// The nets of an area without units.
pub fn no_nets() -> [UnforcedWatts; 16]
    ensures { result ≡ list_below 16 (λ p. unforced_watts (pos 0)) }
{
    [UnforcedWatts(0); 16]
}

// The nets of an area with one unit's shares more. No twin of `lines` of money: two quantities.
pub fn add_shares(nets: [UnforcedWatts; 16], shares: [UnforcedWatts; 16]) -> [UnforcedWatts; 16]
    ensures { result ≡ nets_answer nets shares }
{
    array::from_fn(|p| nets[p].with_share(shares[p]))
}

// The nets of an area after the ready excesses of its units' owners.
pub fn lower_nets(nets: [UnforcedWatts; 16], excesses: [UnforcedWatts; 16]) -> [UnforcedWatts; 16]
    ensures { result ≡ lowered_answer nets excesses }
{
    array::from_fn(|p| nets[p].lowered(excesses[p]))
}
