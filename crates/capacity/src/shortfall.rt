// From a set to its shortfall. The named formula functions here are where installed watts become unforced ones.
ghost use Rattle.std.specs.Prelude.{◌≡◌, true, ◌+◌, ◌≤◌, ◌<◌, pos};
ghost use Rattle.capacity.specs.Quantities.{installed_watts, unforced_watts};
ghost use Rattle.capacity.specs.Shortfall.{watt_days_answer, is_ready, committed_answer, unforced, peak_rated, quarters};
ghost use Rattle.capacity.specs.Shortfall.{unit_available, unit_shortfall, shortfall_answer, installed_most, rate_most};
ghost use Rattle.capacity.specs.Shortfall.{unit_in_range, unit_limit};

use crate::rating::{HourCounts, Rating, in_range};
use crate::{InstalledWatts, UnforcedWatts};

const COMMITMENT_MOST: u64 = 5_000_000;

const LAST_DAY: u64 = 365;

// A commitment's watt-days; 0 where it is out of range, and no Option: none that was accepted is.
#[tactic(auto, unfolding(crate::specs::Shortfall::watt_days, crate::specs::Shortfall::watt_days_answer))]
pub fn watt_days(watts: u64, first: u64, last: u64) -> u64
    ensures { result ≡ watt_days_answer watts first last }
{
    if watts <= COMMITMENT_MOST && first <= last && last <= LAST_DAY {
        watts * (last - first + 1)
    } else {
        0
    }
}

const WHOLE: u64 = 100_000;

// Whether a unit is kept ready but not committed: it has an owner, and its V is 0.
#[tactic(auto, unfolding(crate::specs::Shortfall::is_ready))]
pub fn is_ready(owned: bool, v: u64) -> bool
    ensures { result ≡ is_ready owned v }
{
    owned && v == 0
}

// A unit's T, from its rating, whether it has an owner, its V and the days of the delivery year; 0 where these are out of range, and
// no Option: those of a book never are.
#[tactic(auto, unfolding(crate::specs::Shortfall::committed_answer, crate::specs::Shortfall::unit_committed, crate::specs::Shortfall::committed))]
pub fn committed(rating: Rating, owned: bool, v: u64, days: u64) -> InstalledWatts
    ensures { result ≡ installed_watts (committed_answer rating owned v days) }
{
    if !in_range(rating, v, days) {
        return InstalledWatts(0);
    }
    if is_ready(owned, v) {
        return rating.installed;
    }
    let average = v * WHOLE / ((WHOLE - u64::from(rating.eford)) * days);
    InstalledWatts(rating.installed.0.min(average))
}

impl InstalledWatts {
    // The unforced watts at an outage rate: X of T at f, G of T at g, and U of I at e.
    #[tactic(auto, unfolding(crate::specs::Shortfall::unforced))]
    fn unforced(self, rate: u32) -> UnforcedWatts
        requires { (self.0 ≤ installed_most) × (rate ≤ rate_most) }
        ensures { result ≡ unforced_watts (pos (unforced self.0 rate)) }
    {
        UnforcedWatts::new(self.0 * (WHOLE - u64::from(rate)) / WHOLE)
    }
}

// Of the class, a number as `Rating` has it: what it comes to is all that is known of a class.
#[tactic(auto, unfolding(crate::specs::Shortfall::quarters))]
fn quarters(class: u32) -> u64
    ensures { (result ≡ quarters class) × (result ≤ 4) }
{
    match class {
        0 => 2,
        1 => 3,
        _ => 4,
    }
}

// A unit whose rating and hours are in range, with T, the installed watts that are committed.
#[derive(Clone, Copy)]
struct CommittedUnit {
    rating: Rating,
    hours: HourCounts,
    commitment: InstalledWatts,
    ghost in_range: { unit_in_range rating hours ≡ true },
    ghost at_most: { commitment.0 ≤ installed_most },
}

impl CommittedUnit {
    // P before rule (f) of section 10, by one floor.
    #[tactic(auto, unfolding(crate::specs::Shortfall::peak_rated))]
    fn peak_rated(self) -> UnforcedWatts
        requires { 0 < self.hours.service + self.hours.outage }
        ensures { result ≡ unforced_watts (pos (peak_rated self.commitment.0 self.rating.installed.0 self.hours.service self.hours.outage self.hours.derated)) }
    {
        let HourCounts {
            service,
            outage,
            derated,
        } = self.hours;
        let t = self.commitment.0;
        let i = self.rating.installed.0;
        UnforcedWatts::new(t * (service * i - derated) / (i * (service + outage)))
    }

    // P.
    #[tactic(auto, unfolding(crate::specs::Shortfall::available, numbers::specs::Signed::above))]
    fn available(self) -> UnforcedWatts
        ensures { result ≡ unforced_watts (pos (unit_available self.rating self.hours self.commitment.0)) }
    {
        let year_rated = self.commitment.unforced(self.rating.efordyear);
        if self.hours.service + self.hours.outage == 0 {
            year_rated
        } else if self.hours.service < 50 {
            self.peak_rated().higher(year_rated)
        } else {
            self.peak_rated()
        }
    }

    // S, of X and P.
    fn shortfall(self) -> UnforcedWatts
        ensures { result ≡ unforced_watts (unit_shortfall self.rating self.hours self.commitment.0) }
    {
        let expected = self.commitment.unforced(self.rating.eford5);
        UnforcedWatts::difference(expected.above(), self.available().above())
    }

    // L, of U.
    fn limit(self) -> UnforcedWatts
        ensures { result ≡ unforced_watts (pos (unit_limit self.rating)) }
    {
        let unforced = self.rating.installed.unforced(self.rating.eford);
        UnforcedWatts::new(unforced.above() * quarters(self.rating.class) / 4)
    }
}

// A unit's limited S, from its rating, its hours and its T; 0 where these are out of range, and no Option: those of a book never are.
#[tactic(auto, unfolding(crate::specs::Shortfall::shortfall_answer))]
pub fn limited_shortfall(
    rating: Rating,
    hours: HourCounts,
    commitment: InstalledWatts,
) -> UnforcedWatts
    ensures { result ≡ unforced_watts (shortfall_answer rating hours commitment.0) }
{
    if rating.in_range_at(hours, commitment) {
        let unit = CommittedUnit {
            rating,
            hours,
            commitment,
        };
        unit.shortfall().limited(unit.limit())
    } else {
        UnforcedWatts(0)
    }
}
