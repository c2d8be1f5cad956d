// The peak question for the controllers' C firmware, as include/peak_hour.h declares it.
#![tactic(auto)]

ghost use Rattle.std.specs.Prelude.{◌≡◌};
ghost use Rattle.calendar.specs.Peak.{peak_answer};

use calendar::question;

// 1 peak, 0 not, 2 where there is no answer: the C interface needs a number for the option.
#[tactic(auto, unfolding(calendar::specs::Peak::peak_number))]
#[unsafe(no_mangle)]
pub extern "C" fn peak_hour(year: u32, month: u32, day: u32, hour_ending: u32) -> u32
    ensures { result ≡ peak_answer year month day hour_ending }
{
    match question::is_peak_hour(year, month, day, hour_ending) {
        Some(true) => 1,
        Some(false) => 0,
        None => 2,
    }
}
