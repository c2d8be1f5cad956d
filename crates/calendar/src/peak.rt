// Peak hours.
ghost use Rattle.std.specs.Prelude.{◌≡◌};
ghost use Rattle.calendar.specs.Peak.{hour_bits, peak_period, peak_day, peak_hour};

use crate::gregorian::Date;
use crate::holidays::is_kept_on;
use crate::hours::has_hour;
use crate::week::SATURDAY;

// Hours ending 15 to 19, and 8, 9, 19 and 20.
const SUMMER_HOURS: u32 = 0b0000_0111_1100_0000_0000_0000;

const WINTER_HOURS: u32 = 0b0000_1100_0000_0001_1000_0000;

// The hours of the peak period in a month.
#[tactic(auto, using(crate::proofs::PeakHours::period_bits), unfolding(numbers::specs::Range::within))]
fn period_hours(month: u32) -> u32
    ensures { result ≡ hour_bits (peak_period month) }
{
    match month {
        6..=8 => SUMMER_HOURS,
        1..=2 => WINTER_HOURS,
        _ => 0,
    }
}

impl Date {
    // The weekday, which takes most of the time, is worked out once.
    #[tactic(auto, unfolding(crate::specs::Holidays::work_day, crate::specs::Holidays::free_day, crate::specs::Holidays::kept_on))]
    fn is_peak_day(self) -> bool
        ensures { result ≡ peak_day self.year self.month self.day }
    {
        let weekday = self.weekday();
        weekday < SATURDAY
            && !self.has_holiday()
            && !is_kept_on(self.has_june_19(), self.month, self.day, weekday)
    }

    // The period is tested first: most hours are decided there, without a weekday.
    #[tactic(auto, using(crate::proofs::PeakHours::in_period), unfolding(crate::specs::Peak::peak_hour))]
    pub(crate) fn is_peak(self, hour_ending: u32) -> bool
        ensures { result ≡ peak_hour self.year self.month self.day hour_ending }
    {
        has_hour(period_hours(self.month), hour_ending) && self.is_peak_day()
    }

    // The date's peak hours.
    #[tactic(auto, using(crate::proofs::PeakHours::day_bits))]
    pub(crate) fn peak_hours(self) -> u32
        ensures { result ≡ hour_bits (peak_hour self.year self.month self.day) }
    {
        if self.is_peak_day() {
            period_hours(self.month)
        } else {
            0
        }
    }
}
