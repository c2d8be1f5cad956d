// Row 6: every number of a record in its field's range, and the record's own rule.
#![tactic(auto, unfolding(crate::specs::Refusal::numbers_fit, crate::specs::Refusal::in_range, crate::specs::Refusal::days_fit, crate::specs::Refusal::hour_fits, crate::specs::Refusal::derating_fits))]

ghost use Rattle.std.specs.Prelude.{◌≡◌, drop, Ok};
ghost use Rattle.numbers.specs.Range.{within};
ghost use Rattle.capacity.specs.Shortfall.{installed_most};
ghost use Rattle.records.specs.declared.format.Record.TheVariants as records;
ghost use Rattle.records.specs.declared.format.Record.TheVariants.{Year, Area, Commitment, Hour, Load, Post, Owner};
ghost use Rattle.records.specs.Format.{rate_at, unit_format, fields_fit};
ghost use Rattle.records.specs.Kinds.{rating_numbers};
ghost use Rattle.rules.specs.Refusal.{numbers_fit, derating_fits, in_range};

use crate::hour::{HourKind, date_of, is_derated};
use crate::indices::{AREAS, COMMITMENTS, PARTIES, UNITS};
use calendar::delivery_year::{KnownDate, delivery_days};
use capacity::InstalledWatts;
use capacity::rating::Rating;
use numbers::range::within;
use records::format::{
    AreaRecord, CommitmentRecord, HourRecord, LoadRecord, OwnerRecord, UnitRecord,
};

// A number of 1 to MOST.
fn is_one_of<const MOST: usize>(n: u32) -> bool
    ensures { result ≡ within 1 MOST n }
{
    // `as`: no `From` between `usize` and `u64`.
    within(1, MOST as u64, u64::from(n))
}

fn is_capacity(i: InstalledWatts) -> bool
    ensures { result ≡ within 1 installed_most i.0 }
{
    within(1, 5_000_000, i.watts())
}

fn is_rate(n: u32) -> bool
    ensures { result ≡ (rate_at 0).holds n }
{
    within(0, 99_999, u64::from(n))
}

#[tactic(auto, unfolding(numbers::specs::Range::within))]
fn is_kind(n: u32) -> bool
    ensures { result ≡ within 0 5 n }
{
    HourKind::try_from(n).is_ok()
}

// The numbers of a Unit after its area. `capacity` has bounds of its own, which say what 64 bits rest on.
fn rating_fits(r: Rating) -> bool
    ensures { result ≡ fields_fit (drop 2 unit_format.fields) (rating_numbers r) }
{
    is_capacity(r.installed)
        && is_rate(r.eford)
        && is_rate(r.eford5)
        && is_rate(r.efordyear)
        && within(0, 2, u64::from(r.class))
}

pub(crate) fn year_fits(y: u32) -> bool
    ensures { result ≡ numbers_fit (Ok (Year y)) }
{
    within(2007, 2099, u64::from(y))
}

pub(crate) fn area_fits(a: AreaRecord) -> bool
    ensures { result ≡ numbers_fit (Ok (Area a)) }
{
    is_one_of::<AREAS>(a.area) && within(0, 50_000, u64::from(a.price))
}

pub(crate) fn unit_fits(u: UnitRecord) -> bool
    ensures { result ≡ numbers_fit (Ok (records.Unit u)) }
{
    is_one_of::<UNITS>(u.unit) && is_one_of::<AREAS>(u.area) && rating_fits(u.rating)
}

pub(crate) fn commitment_fits(year: u32, c: CommitmentRecord) -> bool
    ensures { result ≡ in_range year (Ok (Commitment c)) }
{
    is_one_of::<COMMITMENTS>(c.number)
        && is_one_of::<UNITS>(c.unit)
        && is_one_of::<PARTIES>(c.party)
        && within(0, 5_000_000, u64::from(c.watts))
        && c.first <= c.last
        && c.last < delivery_days(year)
}

// At least 1 for a forced derating, and 0 for other kinds.
fn derating_fits(h: HourRecord) -> bool
    ensures { result ≡ derating_fits h }
{
    if is_derated(h) {
        1 <= h.derating
    } else {
        h.derating == 0
    }
}

pub(crate) fn hour_fits(year: u32, h: HourRecord, known: KnownDate) -> bool
    ensures { result ≡ in_range year (Ok (Hour h)) }
{
    is_one_of::<UNITS>(h.unit)
        && within(1, 24, u64::from(h.hour))
        && is_kind(h.kind)
        && known.or_known(date_of(year, h)).is_date
        && derating_fits(h)
}

pub(crate) fn load_fits(l: LoadRecord) -> bool
    ensures { result ≡ numbers_fit (Ok (Load l)) }
{
    is_one_of::<AREAS>(l.area)
        && is_one_of::<PARTIES>(l.party)
        && within(0, 100_000_000, u64::from(l.obligation))
}

pub(crate) fn post_fits(area: u32) -> bool
    ensures { result ≡ numbers_fit (Ok (Post area)) }
{
    is_one_of::<AREAS>(area)
}

pub(crate) fn owner_fits(o: OwnerRecord) -> bool
    ensures { result ≡ numbers_fit (Ok (Owner o)) }
{
    is_one_of::<UNITS>(o.unit) && is_one_of::<PARTIES>(o.party)
}
