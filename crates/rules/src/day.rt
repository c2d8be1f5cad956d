// A Day record, which stands for 24 Hour records, and the date of a record.
ghost use Rattle.std.specs.Prelude.{◌≡◌, ◌≤◌, Ok};
ghost use Rattle.rules.specs.Days.{marked_kind, day_hour, day_service};
ghost use Rattle.rules.specs.Rules.{date_named};

use crate::hour::{HourKind, date_of};
use calendar::delivery_year::KnownDate;
use calendar::hours::{has_hour, hour_count};
use records::format::{DayRecord, HourRecord, Record};

// A set mark means in service, a clear one reserve shutdown. `as`: the kinds' numbers from 0, and nothing is lost.
fn marked_kind(is_set: bool) -> u32
    ensures { result ≡ marked_kind is_set }
{
    if is_set {
        HourKind::InService as u32
    } else {
        HourKind::ReserveShutdown as u32
    }
}

// The Hour record of one of its hours.
#[inline(always)]
pub fn day_hour(d: DayRecord, ending: u32) -> HourRecord
    ensures { result ≡ day_hour d ending }
{
    HourRecord {
        unit: d.unit,
        month: d.month,
        day: d.day,
        hour: ending,
        kind: marked_kind(has_hour(d.marks, ending)),
        derating: 0,
    }
}

// What its hours add to SH: the marks in the peak hours of its date. They add nothing to FOH and D.
#[inline(always)]
pub fn day_service(year: u32, d: DayRecord, known: KnownDate) -> u64
    ensures value { result ≡ day_service year d }
    ensures most { result ≤ 24 }
{
    let date = known.or_known(date_of(year, day_hour(d, 1)));
    u64::from(hour_count(d.marks & date.peak_hours))
}

// The date that a record names, worked out once for the rows and for the unit; no date for a record that names none.
pub fn date_named(year: u32, r: Record) -> KnownDate
    ensures { result.date ≡ date_named year (Ok r) }
{
    match r {
        Record::Hour(h) => date_of(year, h).known(),
        Record::Day(d) => date_of(year, day_hour(d, 1)).known(),
        _ => KnownDate::none(),
    }
}
