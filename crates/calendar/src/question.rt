// The peak question. `calendar_c` offers it to the controllers' C firmware (include/peak_hour.h).
ghost use Rattle.std.specs.Prelude.{◌≡◌};
ghost use Rattle.calendar.specs.Peak.{is_answered, peak_answer, peak_number};

use crate::gregorian::Date;

impl Date {
    #[tactic(auto, unfolding(crate::specs::Peak::is_answered, numbers::specs::Range::within))]
    fn is_answered(self, hour_ending: u32) -> bool
        ensures { result ≡ is_answered self.year self.month self.day hour_ending }
    {
        self.is_in_calendar() && matches!(hour_ending, 1..=24) && matches!(self.year, 2007..=2100)
    }
}

// Whether the hour is peak; None where there is no answer.
#[tactic(auto, unfolding(crate::specs::Peak::peak_answer, crate::specs::Peak::peak_number))]
pub fn is_peak_hour(year: u32, month: u32, day: u32, hour_ending: u32) -> Option<bool>
    ensures { peak_number result ≡ peak_answer year month day hour_ending }
{
    let date = Date {
        year: u64::from(year),
        month,
        day,
    };
    date.is_answered(hour_ending)
        .then(|| date.is_peak(hour_ending))
}
