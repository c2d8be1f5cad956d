// From the parties' nets in an area to their dues.
ghost use Rattle.std.specs.Prelude.{◌≡◌, true, cond, ◌&&◌, ◌+◌, ◌-◌, ◌*◌, ◌^◌, ◌<◌, min, pos, ltb, eqb};
ghost use Rattle.std.proofs.Math.IntN.{sub_ℕ};
ghost use Rattle.numbers.specs.Sum.{sum_below};
ghost use Rattle.numbers.specs.Lists.{list_below, element};
ghost use Rattle.numbers.specs.Signed.{above};
ghost use Rattle.numbers.specs.Split.{split};
ghost use Rattle.capacity.specs.Quantities.{watts_of};
ghost use Rattle.money.specs.Quantities.{cents, cents_of, money};
ghost use Rattle.money.specs.AreaMoney.{charge, ceiling, watts_in_range, area_in_range, settled, money_answer};

use crate::Cents;
use capacity::UnforcedWatts;
use capacity::shares::NET_MOST;
use numbers::split::{capped_sum, split_array};
use std::array;

// Money is left over that no obligation takes, which is refusal 11; the dues are each party's without it.
#[derive(Clone, Copy)]
pub struct Undistributed {
    pub dues: [Cents; 16],
}

const MEGAWATT: u64 = 1_000_000;

const OBLIGATIONS_MOST: u64 = 1_600_000_000;

impl Cents {
    // Money split over the parties.
    fn split(self, weights: [u64; 16]) -> [Self; 16]
        requires { above self.0 * sum_below 16 (element weights) < 2 ^ 63 }
        ensures { result ≡ money (split (above self.0) 16 (element weights)) }
    {
        split_array(self.cents_above(), weights).map(Cents::new)
    }
}

// The terms of a sum, and the weights of a split.
fn amounts(money: [Cents; 16]) -> [u64; 16]
    ensures { result ≡ list_below 16 (λ p. above (cents_of money p)) }
{
    money.map(Cents::cents_above)
}

// The sum of what sixteen parties pay, or of what they may get.
fn total(money: [Cents; 16]) -> Cents
    ensures { result ≡ cents (pos (min (sum_below 16 (λ p. above (cents_of money p))) (2 ^ 63 - 1))) }
{
    Cents::new(capped_sum(&amounts(money)))
}

// Each party's credit, from R and the sum of M: R split by M where it is below that sum, else M.
fn credits(charged: Cents, ceiling: Cents, ceilings: [Cents; 16]) -> [Cents; 16]
    requires { above charged.0 * sum_below 16 (λ p. above (cents_of ceilings p)) < 2 ^ 63 }
    ensures { result ≡ cond (ltb (above charged.0) (above ceiling.0)) (money (split (above charged.0) 16 (λ p. above (cents_of ceilings p)))) ceilings }
{
    if charged.cents_above() < ceiling.cents_above() {
        charged.split(amounts(ceilings))
    } else {
        ceilings
    }
}

// What is left of R after the credits.
fn left_over(charged: Cents, ceiling: Cents) -> Cents
    ensures { result ≡ cents (pos (above charged.0 - above ceiling.0)) }
{
    Cents::new(charged.cents_above().saturating_sub(ceiling.cents_above()))
}

// Refusal 11: money is left over and the obligations add up to 0.
fn is_undistributed(left: Cents, obligations: [u64; 16]) -> bool
    ensures { result ≡ (ltb 0 (above left.0) && eqb (sum_below 16 (element obligations)) 0) }
{
    0 < left.cents_above() && capped_sum(&obligations) == 0
}

// credit + load share − charge, of each party. Three arrays, as the definitions have three functions of a party.
fn dues(credits: [Cents; 16], load_shares: [Cents; 16], charges: [Cents; 16]) -> [Cents; 16]
    requires { sum_below 16 (λ p. above (cents_of credits p)) + sum_below 16 (λ p. above (cents_of load_shares p)) < 2 ^ 63 }
    ensures { result ≡ list_below 16 (λ p. cents (sub_ℕ (above (cents_of credits p) + above (cents_of load_shares p)) (above (cents_of charges p)))) }
{
    array::from_fn(|p| {
        Cents::difference(
            credits[p].cents_above() + load_shares[p].cents_above(),
            charges[p].cents_above(),
        )
    })
}

// The shortfalls of all parties together, and the excesses, are in range.
fn watts_in_range(nets: [UnforcedWatts; 16]) -> bool
    ensures { result ≡ watts_in_range (watts_of nets) }
{
    capped_sum(&nets.map(UnforcedWatts::above)) <= NET_MOST
        && capped_sum(&nets.map(UnforcedWatts::below)) <= NET_MOST
}

#[tactic(auto, unfolding(crate::specs::AreaMoney::area_in_range))]
fn area_in_range(nets: [UnforcedWatts; 16], price: u64, days: u64, obligations: [u64; 16]) -> bool
    ensures { result ≡ area_in_range (watts_of nets) price days (element obligations) }
{
    price <= 50_000
        && days <= 366
        && capped_sum(&obligations) <= OBLIGATIONS_MOST
        && watts_in_range(nets)
}

// An area's facts, in range: each party's net and obligation, the price in cents per MW-day, and the days of the delivery year.
#[derive(Clone, Copy)]
struct Area {
    nets: [UnforcedWatts; 16],
    price: u64,
    days: u64,
    obligations: [u64; 16],
    ghost in_range: { area_in_range (watts_of nets) price days (element obligations) ≡ true },
}

impl Area {
    // C of a party: its shortfall, priced.
    fn charge(self, p: usize) -> Cents
        requires { p < 16 }
        ensures { result ≡ cents (pos (charge (watts_of self.nets) self.price self.days p)) }
    {
        Cents::new(self.nets[p].above() * self.price * self.days / MEGAWATT)
    }

    // M of a party: its excess, priced. Beside C, and no function of the watts for both: quantities are converted in named formula
    // functions alone, which tests/host/quantities lists.
    fn ceiling(self, p: usize) -> Cents
        requires { p < 16 }
        ensures { result ≡ cents (pos (ceiling (watts_of self.nets) self.price self.days p)) }
    {
        Cents::new(self.nets[p].below() * self.price * self.days / MEGAWATT)
    }

    fn charges(self) -> [Cents; 16]
        ensures { result ≡ money (charge (watts_of self.nets) self.price self.days) }
    {
        array::from_fn(|p| self.charge(p))
    }

    fn ceilings(self) -> [Cents; 16]
        ensures { result ≡ money (ceiling (watts_of self.nets) self.price self.days) }
    {
        array::from_fn(|p| self.ceiling(p))
    }

    fn settled(self) -> Result<[Cents; 16], Undistributed>
        ensures { result ≡ settled (watts_of self.nets) self.price self.days (element self.obligations) }
    {
        let charges = self.charges();
        let ceilings = self.ceilings();
        let charged = total(charges);
        let ceiling = total(ceilings);
        let credits = credits(charged, ceiling, ceilings);
        let left = left_over(charged, ceiling);
        let load_shares = left.split(self.obligations);
        let dues = dues(credits, load_shares, charges);
        if is_undistributed(left, self.obligations) {
            Err(Undistributed { dues })
        } else {
            Ok(dues)
        }
    }
}

// What an area comes to; out of range, nothing is left over and every due is 0, and no Option: no area of a book is.
#[tactic(auto, unfolding(crate::specs::AreaMoney::money_answer))]
pub fn area_money(
    nets: [UnforcedWatts; 16],
    price: u64,
    days: u64,
    obligations: [u64; 16],
) -> Result<[Cents; 16], Undistributed>
    ensures { result ≡ money_answer nets price days obligations }
{
    if area_in_range(nets, price, days, obligations) {
        let area = Area {
            nets,
            price,
            days,
            obligations,
        };
        area.settled()
    } else {
        Ok([Cents(0); 16])
    }
}
