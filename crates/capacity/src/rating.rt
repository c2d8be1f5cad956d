// A set's rating and hours, and their ranges.
ghost use Rattle.std.specs.Prelude.{◌≡◌, ◌&&◌, leb};
ghost use Rattle.capacity.specs.Shortfall.{rates_in_range, rating_in_range, hours_in_range, unit_in_range, year_in_range};

use crate::InstalledWatts;
use numbers::range::within;

// A set's rating, as its Unit record states it.
#[derive(Clone, Copy, Default)]
pub struct Rating {
    // I, installed capacity (ICAP).
    pub installed: InstalledWatts,
    // Outage rates in hundred-thousandths: e, the effective EFORd; f, EFORd-5; g, the EFORd from the year's own outages.
    pub eford: u32,
    pub eford5: u32,
    pub efordyear: u32,
    // A number, since a record states any byte: to refuse another than 0, 1 and 2 is the task of row 6. No enum, as the kinds of hour
    // have: document 01 gives the classes no names, only their quarters.
    pub class: u32,
}

// What a unit's accepted peak hours come to; by default none.
#[derive(Clone, Copy, Default)]
pub struct HourCounts {
    // SH, in service.
    pub service: u64,
    // FOH, in full forced outage.
    pub outage: u64,
    // D, the sum of the forced deratings in watts.
    pub derated: u64,
}

pub(crate) const INSTALLED_MOST: u64 = 5_000_000;

const RATE_MOST: u32 = 99_999;

const HOURS_MOST: u64 = 8_784;

pub(crate) const WATT_DAYS_MOST: u64 = 117_120_000_000;

impl Rating {
    #[tactic(auto, unfolding(crate::specs::Shortfall::rates_in_range))]
    fn rates_in_range(self) -> bool
        ensures { result ≡ rates_in_range self }
    {
        self.eford <= RATE_MOST
            && self.eford5 <= RATE_MOST
            && self.efordyear <= RATE_MOST
            && self.class <= 2
    }

    #[tactic(auto, unfolding(crate::specs::Shortfall::rating_in_range))]
    fn rating_in_range(self) -> bool
        ensures { result ≡ rating_in_range self }
    {
        within(1, INSTALLED_MOST, self.installed.0) && self.rates_in_range()
    }

    // A product past the greatest number is above any deratings.
    #[tactic(auto, unfolding(crate::specs::Shortfall::hours_in_range))]
    fn hours_in_range(self, hours: HourCounts) -> bool
        ensures { result ≡ hours_in_range self hours }
    {
        hours.service <= HOURS_MOST
            && hours.outage <= HOURS_MOST
            && hours.derated <= hours.service.saturating_mul(self.installed.0)
    }

    #[tactic(auto, unfolding(crate::specs::Shortfall::unit_in_range))]
    fn unit_in_range(self, hours: HourCounts) -> bool
        ensures { result ≡ unit_in_range self hours }
    {
        self.rating_in_range() && self.hours_in_range(hours)
    }

    // Whether the hours and a T are in range with it: T is at most I.
    pub(crate) fn in_range_at(self, hours: HourCounts, commitment: InstalledWatts) -> bool
        ensures { result ≡ (unit_in_range self hours && leb commitment.0 self.installed.0) }
    {
        self.unit_in_range(hours) && commitment.0 <= self.installed.0
    }
}

#[tactic(auto, unfolding(crate::specs::Shortfall::year_in_range))]
fn year_in_range(v: u64, days: u64) -> bool
    ensures { result ≡ year_in_range v days }
{
    v <= WATT_DAYS_MOST && within(365, 366, days)
}

// Whether a unit's rating, its watt-days and the days of the year are in range.
pub(crate) fn in_range(rating: Rating, v: u64, days: u64) -> bool
    ensures { result ≡ (rating_in_range rating && year_in_range v days) }
{
    rating.rating_in_range() && year_in_range(v, days)
}
