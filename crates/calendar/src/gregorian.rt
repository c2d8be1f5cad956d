// The Gregorian calendar.
ghost use Rattle.std.specs.Prelude.{◌≡◌, false, cond, ◌&&◌, ◌≤◌, ◌<◌, ◌^◌, ltb};
ghost use Rattle.numbers.specs.Sum.{sum_below};
ghost use Rattle.calendar.specs.Gregorian.{leap_year, month_days, days_of_month, is_date, days_before_year, day_of_year, day_number};

#[tactic(auto, unfolding(crate::specs::Gregorian::leap_year))]
pub(crate) fn is_leap_year(year: u64) -> bool
    ensures { result ≡ leap_year year }
{
    year % 4 == 0 && (year % 100 != 0 || year % 400 == 0)
}

// The days before each month in a common year.
#[tactic(auto, using(crate::proofs::Months::all_before), unfolding(numbers::specs::Sum::sum_below, crate::specs::Gregorian::month_days, numbers::specs::Range::within))]
fn days_before_month(month: u32) -> u32
    ensures { result ≡ sum_below month (month_days false) }
{
    match month {
        0..=1 => 0,
        2 => 31,
        3 => 59,
        4 => 90,
        5 => 120,
        6 => 151,
        7 => 181,
        8 => 212,
        9 => 243,
        10 => 273,
        11 => 304,
        12 => 334,
        _ => 365,
    }
}

// A date as it is asked for: the calendar may not have it. Its year is bounded so that the number of its day fits 64 bits.
#[derive(Clone, Copy)]
pub(crate) struct Date {
    pub(crate) year: u64,
    pub(crate) month: u32,
    pub(crate) day: u32,
    ghost year_fits: { year ≤ 2 ^ 32 },
}

impl Date {
    // 0 of what is no month, and no Option: it then has no day, which is all that `is_in_calendar` asks.
    #[tactic(auto, unfolding(crate::specs::Gregorian::month_days, numbers::specs::Range::within))]
    fn days_of_month(self) -> u32
        ensures { result ≡ days_of_month self.year self.month }
    {
        match self.month {
            2 if is_leap_year(self.year) => 29,
            2 => 28,
            4 | 6 | 9 | 11 => 30,
            1..=12 => 31,
            _ => 0,
        }
    }

    #[tactic(auto, unfolding(crate::specs::Gregorian::is_date, numbers::specs::Range::within))]
    pub(crate) fn is_in_calendar(self) -> bool
        ensures { result ≡ is_date self.year self.month self.day }
    {
        1 <= self.day && self.day <= self.days_of_month()
    }

    #[tactic(auto, unfolding(crate::specs::Gregorian::days_before_year, crate::specs::Gregorian::multiples_below))]
    fn days_before_year(self) -> u64
        ensures { (result ≡ days_before_year self.year) × (result < 2 ^ 41) }
    {
        365 * self.year + (self.year + 3) / 4 - (self.year + 99) / 100 + (self.year + 399) / 400
    }

    // The day that a leap year has more, from March on.
    fn leap_day(self) -> u64
        ensures { result ≡ cond (leap_year self.year && ltb 2 self.month) 1 0 }
    {
        u64::from(2 < self.month && is_leap_year(self.year))
    }

    #[tactic(auto, using(crate::proofs::Months::before_at), unfolding(crate::specs::Gregorian::day_of_year))]
    fn day_of_year(self) -> u64
        ensures { (result ≡ day_of_year self.year self.month self.day) × (result < 2 ^ 33) }
    {
        u64::from(days_before_month(self.month)) + self.leap_day() + u64::from(self.day)
    }

    #[tactic(auto, unfolding(crate::specs::Gregorian::day_number))]
    pub(crate) fn day_number(self) -> u64
        ensures { (result ≡ day_number self.year self.month self.day) × (result < 2 ^ 42) }
    {
        self.days_before_year() + self.day_of_year()
    }
}
