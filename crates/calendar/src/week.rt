// Weekdays.
ghost use Rattle.std.specs.Prelude.{◌≡◌, ◌<◌};
ghost use Rattle.calendar.specs.Week.{weekday};

use crate::gregorian::Date;

pub(crate) const MONDAY: u64 = 0;

pub(crate) const TUESDAY: u64 = 1;

pub(crate) const WEDNESDAY: u64 = 2;

pub(crate) const THURSDAY: u64 = 3;

pub(crate) const FRIDAY: u64 = 4;

pub(crate) const SATURDAY: u64 = 5;

pub(crate) const SUNDAY: u64 = 6;

impl Date {
    // A number from MONDAY to SUNDAY, since a remainder by 7 gives it.
    #[tactic(auto, unfolding(crate::specs::Week::weekday))]
    pub(crate) fn weekday(self) -> u64
        ensures { (result ≡ weekday self.year self.month self.day) × (result < 7) }
    {
        (self.day_number() + 4) % 7
    }
}
