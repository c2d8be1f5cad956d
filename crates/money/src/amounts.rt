// Money by its parts above and below zero; all sums are worked out on the parts.
ghost use Rattle.std.specs.Prelude.{◌≡◌, ◌-◌, ◌≤◌, ◌<◌, ◌^◌, min, pos, nat_abs};
ghost use Rattle.numbers.specs.Signed.{above, below, difference_answer};
ghost use Rattle.money.specs.Quantities.{cents};

use crate::Cents;
use numbers::signed;

// These stand beside the methods of unforced watts, and not in one trait for both: each quantity keeps its number to its own crate.
impl Cents {
    pub(crate) fn cents_above(self) -> u64
        ensures { (result ≡ above self.0) × (result < 2 ^ 63) }
    {
        signed::above(self.0)
    }

    pub(crate) fn cents_below(self) -> u64
        ensures { (result ≡ below self.0) × (result ≤ 2 ^ 63) }
    {
        signed::below(self.0)
    }

    pub(crate) fn cents_size(self) -> u64
        ensures { (result ≡ nat_abs self.0) × (result ≤ 2 ^ 63) }
    {
        self.0.unsigned_abs()
    }

    // So many cents, or the most that there can be: sums of money may be any, where watts are asked to fit.
    pub(crate) fn new(amount: u64) -> Self
        ensures { result ≡ cents (pos (min amount (2 ^ 63 - 1))) }
    {
        Cents(i64::try_from(amount).unwrap_or(i64::MAX))
    }

    // a − b; 0 where either is past the greatest signed number, as `signed::difference` says.
    pub(crate) fn difference(a: u64, b: u64) -> Self
        ensures { result ≡ cents (difference_answer a b) }
    {
        Cents(signed::difference(a, b))
    }
}
