// The delivery year: from 1 June of year y to 31 May of y + 1. For the book.
ghost use Rattle.std.specs.Prelude.{◌≡◌, ◌&&◌, eqb};
ghost use Rattle.calendar.specs.Peak.{hour_bits};
ghost use Rattle.calendar.specs.DeliveryYear.{no_date, delivery_days, calendar_year, is_delivery_date, delivery_day, is_delivery_peak};

use crate::gregorian::{Date, is_leap_year};
use crate::hours::has_hour;

// The days of a delivery year.
#[tactic(auto, unfolding(crate::specs::DeliveryYear::delivery_days))]
pub fn delivery_days(year: u32) -> u32
    ensures { result ≡ delivery_days year }
{
    365 + u32::from(is_leap_year(u64::from(year) + 1))
}

// A month and a day of a delivery year, as they are asked for: the year may have no such date.
#[derive(Clone, Copy)]
pub struct DeliveryDate {
    pub year: u32,
    pub month: u32,
    pub day: u32,
}

impl DeliveryDate {
    // June to December lie in the year that the delivery year is named by, January to May in the next.
    #[tactic(auto, unfolding(crate::specs::DeliveryYear::calendar_year))]
    fn date(self) -> Date
        ensures year { result.year ≡ calendar_year self.year self.month }
        ensures month { result.month ≡ self.month }
        ensures day { result.day ≡ self.day }
    {
        Date {
            year: u64::from(self.year) + u64::from(self.month < 6),
            month: self.month,
            day: self.day,
        }
    }

    // Whether the delivery year has the date.
    #[tactic(auto, unfolding(crate::specs::DeliveryYear::is_delivery_date))]
    fn is_date(self) -> bool
        ensures { result ≡ is_delivery_date self.year self.month self.day }
    {
        self.date().is_in_calendar()
    }

    // The day of the delivery year, where day 0 is 1 June; 0 also where the year has no such date, and no Option, since row 6 refuses
    // such a record before a row asks its day. `as` narrows, as `From` never does, and loses nothing: the year has 366 days at most.
    #[tactic(auto, using(crate::proofs::DeliveryYears::in_year, crate::proofs::DeliveryYears::days_at_most), unfolding(crate::specs::DeliveryYear::delivery_day))]
    fn day_of_year(self) -> u32
        ensures { result ≡ delivery_day self.year self.month self.day }
    {
        if !self.is_date() {
            return 0;
        }
        let first_june = Date {
            year: u64::from(self.year),
            month: 6,
            day: 1,
        };
        (self.date().day_number() - first_june.day_number()) as u32
    }

    // The date's peak hours, as bits; none where the delivery year has no such date.
    #[tactic(auto, using(crate::proofs::PeakHours::date_bits))]
    fn peak_hours(self) -> u32
        ensures { result ≡ hour_bits (is_delivery_peak self.year self.month self.day) }
    {
        if self.is_date() {
            self.date().peak_hours()
        } else {
            0
        }
    }

    // All that hours ask of the date. Not inlined: it is called once for the records of a date, and is longer than what is done with one.
    #[inline(never)]
    pub fn known(self) -> KnownDate
        ensures { result.date ≡ self }
    {
        KnownDate {
            date: self,
            is_date: self.is_date(),
            day_of_year: self.day_of_year(),
            peak_hours: self.peak_hours(),
        }
    }
}

// A date with all that hours ask of it, worked out once: records come by the date.
#[derive(Clone, Copy)]
pub struct KnownDate {
    pub date: DeliveryDate,
    pub is_date: bool,
    pub day_of_year: u32,
    // As bits.
    pub peak_hours: u32,
    ghost is_date_known: { is_date ≡ is_delivery_date date.year date.month date.day },
    ghost day_known: { day_of_year ≡ delivery_day date.year date.month date.day },
    ghost hours_known: { peak_hours ≡ hour_bits (is_delivery_peak date.year date.month date.day) },
}

impl KnownDate {
    // No date of any year: where none is worked out yet.
    #[tactic(auto, using(crate::proofs::PeakHours::no_date_known))]
    pub fn none() -> Self
        ensures { result.date ≡ no_date }
    {
        Self {
            date: DeliveryDate {
                year: 0,
                month: 0,
                day: 0,
            },
            is_date: false,
            day_of_year: 0,
            peak_hours: 0,
        }
    }

    // Whether it is of this date.
    fn is_of(self, date: DeliveryDate) -> bool
        ensures { result ≡ (eqb self.date.year date.year && (eqb self.date.month date.month && eqb self.date.day date.day)) }
    {
        self.date.year == date.year && self.date.month == date.month && self.date.day == date.day
    }

    // The date that is asked for: this one, or worked out anew if it is another. The date itself is that of the argument in both
    // cases, so that a compiler sees what a second call on the result would test.
    #[inline(always)]
    pub fn or_known(self, date: DeliveryDate) -> Self
        ensures { result.date ≡ date }
    {
        let known = if self.is_of(date) { self } else { date.known() };
        Self {
            date,
            is_date: known.is_date,
            day_of_year: known.day_of_year,
            peak_hours: known.peak_hours,
        }
    }

    // Whether its hour ending hour_ending is peak.
    #[tactic(auto, using(crate::proofs::PeakHours::is_peak_known))]
    #[inline(always)]
    pub fn is_peak(self, hour_ending: u32) -> bool
        ensures { result ≡ is_delivery_peak self.date.year self.date.month self.date.day hour_ending }
    {
        has_hour(self.peak_hours, hour_ending)
    }
}
