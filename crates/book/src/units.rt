// A unit: as it is entered, with an hour or a day more, and with an owner.
ghost use Rattle.std.specs.Prelude.{◌≡◌};
ghost use Rattle.book.specs.Books.{SoundUnit};
ghost use Rattle.book.specs.Entered.{new_unit, with_hour, with_owner, with_day};

use crate::UnitEntry;
use calendar::delivery_year::KnownDate;
use calendar::hours::DAY_HOURS;
use capacity::rating::HourCounts;
use records::format::{DayRecord, HourRecord, OwnerRecord, UnitRecord};
use rules::day::{day_hour, day_service};
use rules::hour::{hour_counts, hour_index};

impl UnitEntry {
    pub(crate) fn new(entry: UnitRecord) -> Self
        ensures { result ≡ new_unit entry }
    {
        Self {
            entry,
            owner: 0,
            hours: HourCounts::default(),
            last: 0,
        }
    }

    // With one accepted hour more.
    #[inline(always)]
    pub(crate) fn with_hour(self, year: u32, h: HourRecord, known: KnownDate) -> Self
        requires { SoundUnit self }
        ensures { result ≡ with_hour year self h }
    {
        let counts = self.hours;
        let more = hour_counts(year, h, known);
        Self {
            entry: self.entry,
            owner: self.owner,
            hours: HourCounts {
                service: counts.service + more.service,
                outage: counts.outage + more.outage,
                derated: counts.derated + more.derated,
            },
            last: hour_index(year, h, known),
        }
    }

    // With all hours of an accepted Day more: they add to SH alone, and hour 24 is the last.
    #[inline(always)]
    pub(crate) fn with_day(self, year: u32, d: DayRecord, known: KnownDate) -> Self
        requires { SoundUnit self }
        ensures { result ≡ with_day year self d }
    {
        let counts = self.hours;
        Self {
            entry: self.entry,
            owner: self.owner,
            hours: HourCounts {
                service: counts.service + day_service(year, d, known),
                outage: counts.outage,
                derated: counts.derated,
            },
            last: hour_index(year, day_hour(d, DAY_HOURS), known),
        }
    }

    // With an owner, in place of any it had.
    pub(crate) fn with_owner(self, o: OwnerRecord) -> Self
        ensures { result ≡ with_owner self o }
    {
        Self {
            owner: o.party,
            ..self
        }
    }
}
