// The hours of a day as 24 bits, of which the lowest is the hour ending 1.
ghost use Rattle.std.specs.Prelude.{◌≡◌};
ghost use Rattle.calendar.specs.Peak.{has_hour, hour_count};

pub const DAY_HOURS: u32 = 24;

// Whether an hour is one of these, by shift and mask. One outside 1 to 24 is none.
#[tactic(auto, unfolding(numbers::specs::Range::within))]
#[inline(always)]
pub fn has_hour(hours: u32, hour_ending: u32) -> bool
    ensures { result ≡ has_hour hours hour_ending }
{
    1 <= hour_ending && hour_ending <= DAY_HOURS && (hours >> (hour_ending - 1)) & 1 == 1
}

// How many they are: each is taken by shift and mask. Most dates have no peak hour, and there is then nothing to count.
#[tactic(auto, using(numbers::proofs::Sums::sum_one_more, crate::proofs::PeakHours::none_counted), unfolding(numbers::specs::Sum::sum_below))]
pub fn hour_count(hours: u32) -> u32
    ensures { result ≡ hour_count hours }
{
    if hours == 0 {
        return 0;
    }
    let mut count = 0;
    for k in 0..DAY_HOURS {
        count += u32::from(has_hour(hours, k + 1));
    }
    count
}
