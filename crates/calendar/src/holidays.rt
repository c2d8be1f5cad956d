// Holidays.
ghost use Rattle.std.specs.Prelude.{◌≡◌};
ghost use Rattle.calendar.specs.Week.{weekday};
ghost use Rattle.calendar.specs.Holidays.{third_monday, falls_on, kept_on, has_june_19};

use crate::gregorian::Date;
use crate::week::{FRIDAY, MONDAY, SATURDAY, SUNDAY, THURSDAY, TUESDAY, WEDNESDAY};

// Whether a holiday is kept on a day that has the weekday, as it falls on the Saturday after or the Sunday before.
#[tactic(auto, unfolding(crate::specs::Holidays::kept_on, crate::specs::Holidays::day_before, crate::specs::Holidays::day_after))]
pub(crate) fn is_kept_on(june_19: bool, month: u32, day: u32, weekday: u64) -> bool
    ensures { result ≡ kept_on (λ m d. weekday) june_19 month day }
{
    match (month, day) {
        (6, _) if !june_19 => false,
        (12, 31) | (6, 18) | (7, 3) => weekday == FRIDAY,
        (1, 2) | (6, 20) | (7, 5) => weekday == MONDAY,
        _ => false,
    }
}

impl Date {
    // The third Monday of the date's month, by the weekday of its 1st.
    #[tactic(auto, unfolding(crate::specs::Holidays::third_monday, crate::specs::Holidays::day_of_third_monday))]
    fn third_monday(self) -> u64
        ensures { result ≡ third_monday (weekday self.year) self.month }
    {
        let first = Date {
            year: self.year,
            month: self.month,
            day: 1,
        };
        match first.weekday() {
            MONDAY => 15,
            SUNDAY => 16,
            SATURDAY => 17,
            FRIDAY => 18,
            THURSDAY => 19,
            WEDNESDAY => 20,
            TUESDAY => 21,
            _ => unreachable!(),
        }
    }

    // 19 June is a holiday from 2021 on.
    #[tactic(auto, unfolding(crate::specs::Holidays::has_june_19))]
    pub(crate) fn has_june_19(self) -> bool
        ensures { result ≡ has_june_19 self.year }
    {
        2021 <= self.year
    }

    // Whether a holiday falls on the date.
    #[tactic(auto, unfolding(crate::specs::Holidays::falls_on))]
    pub(crate) fn has_holiday(self) -> bool
        ensures { result ≡ falls_on (weekday self.year) (has_june_19 self.year) self.month self.day }
    {
        match (self.month, self.day) {
            (1, 1) | (7, 4) => true,
            (6, 19) => self.has_june_19(),
            (1..=2, day) => u64::from(day) == self.third_monday(),
            _ => false,
        }
    }
}
