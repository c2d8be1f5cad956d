// An Hour record in its delivery year.
#![tactic(auto, unfolding(crate::specs::Hours::hour_index, crate::specs::Hours::is_peak, crate::specs::Hours::service_hour, crate::specs::Hours::outage_hour, crate::specs::Hours::derated_watts))]

ghost use Rattle.std.specs.Prelude.{◌≡◌, ◌+◌, ◌≤◌, ◌<◌, ◌^◌, eqb};
ghost use Rattle.rules.specs.Hours.{derated, date_of, hour_index, is_peak, hour_counts, IsKind};

use calendar::delivery_year::{DeliveryDate, KnownDate};
use calendar::hours::DAY_HOURS;
use capacity::rating::HourCounts;
use records::format::HourRecord;

// The kinds of hour, in the order of their numbers from 0.
#[derive(Clone, Copy)]
pub enum HourKind {
    InService,
    // In service, with a forced derating while called upon.
    Derated,
    // In service, with a derating excused.
    DeratingExcused,
    // In full forced outage while called upon.
    ForcedOut,
    // In an outage excused, or not called upon.
    OutageExcused,
    ReserveShutdown,
}

// A number that is of no kind of hour.
#[derive(Clone, Copy)]
pub struct NoKind(pub u32);

impl TryFrom<u32> for HourKind {
    type Error = NoKind;

    ghost try_from_gives = { IsKind };

    fn try_from(number: u32) -> Result<Self, NoKind> {
        match number {
            0 => Ok(HourKind::InService),
            1 => Ok(HourKind::Derated),
            2 => Ok(HourKind::DeratingExcused),
            3 => Ok(HourKind::ForcedOut),
            4 => Ok(HourKind::OutageExcused),
            5 => Ok(HourKind::ReserveShutdown),
            _ => Err(NoKind(number)),
        }
    }
}

// Whether its kind is a forced derating while called upon.
pub(crate) fn is_derated(h: HourRecord) -> bool
    ensures { result ≡ eqb h.kind derated }
{
    matches!(HourKind::try_from(h.kind), Ok(HourKind::Derated))
}

// Its date in a delivery year. The year, which is the book's, and the Hour stay two arguments: the definitions take them so
// (`hour_index y h`, `hour_counts y h`), and the two functions of these names are public.
pub fn date_of(year: u32, h: HourRecord) -> DeliveryDate
    ensures { result ≡ date_of year h }
{
    DeliveryDate {
        year,
        month: h.month,
        day: h.day,
    }
}

// Its index in a delivery year, by day and then hour ending. Here and below `known` may be any date: where it is the Hour's, it is
// not worked out again.
#[inline(always)]
pub fn hour_index(year: u32, h: HourRecord, known: KnownDate) -> u64
    ensures { result ≡ hour_index year h }
{
    u64::from(known.or_known(date_of(year, h)).day_of_year) * u64::from(DAY_HOURS)
        + u64::from(h.hour)
}

#[inline(always)]
fn is_peak(year: u32, h: HourRecord, known: KnownDate) -> bool
    ensures { result ≡ is_peak year h }
{
    known.or_known(date_of(year, h)).is_peak(h.hour)
}

// An hour, as SH and FOH count it.
const HOUR: u64 = 1;

// What an hour adds to SH, to FOH and to D.
#[inline(always)]
pub fn hour_counts(year: u32, h: HourRecord, known: KnownDate) -> HourCounts
    ensures value { result ≡ hour_counts year h }
    ensures hours_most { result.service + result.outage ≤ 1 }
    ensures derated_most { result.derated < 2 ^ 32 }
{
    let nothing = HourCounts::default();
    if !is_peak(year, h, known) {
        return nothing;
    }
    match HourKind::try_from(h.kind) {
        Ok(HourKind::InService | HourKind::DeratingExcused) => HourCounts {
            service: HOUR,
            ..nothing
        },
        Ok(HourKind::Derated) => HourCounts {
            service: HOUR,
            derated: u64::from(h.derating),
            ..nothing
        },
        Ok(HourKind::ForcedOut) => HourCounts {
            outage: HOUR,
            ..nothing
        },
        _ => nothing,
    }
}
