// The indices of what a record names, counted from 0.
#![tactic(auto, unfolding(crate::specs::Rules::index, numbers::specs::Range::within))]

ghost use Rattle.std.specs.Prelude.{◌≡◌, ◌<◌, Ok};
ghost use Rattle.records.specs.Format.{area_count, unit_count};
ghost use Rattle.rules.specs.Rules.{index, area_named, unit_named};

use numbers::range::within;
use records::format::Record;

// Areas, units, commitments and parties are numbered from 1 to these.
pub const AREAS: usize = 8;

pub const UNITS: usize = 32;

pub const COMMITMENTS: usize = 64;

pub const PARTIES: usize = 16;

// The index of a number of 1 to MOST; 0 where it is out of range, and no Option: row 6 refuses such a record before a row asks.
pub fn index<const MOST: usize>(number: u32) -> usize
    ensures value { result ≡ index MOST number }
    ensures below { 0 < MOST → result < MOST }
{
    // `as`, here and below: no `From` between `u32` or `u64` and `usize`.
    if within(1, MOST as u64, u64::from(number)) {
        number as usize - 1
    } else {
        0
    }
}

// The index of the area that a record names; 0, and no Option, for one that names none, since no row asks then. So of the unit.
pub fn area_named(r: Record) -> usize
    ensures { (result ≡ area_named (Ok r)) × (result < area_count) }
{
    match r {
        Record::Area(a) => index::<AREAS>(a.area),
        Record::Unit(u) => index::<AREAS>(u.area),
        Record::Load(l) => index::<AREAS>(l.area),
        Record::Post(a) => index::<AREAS>(a),
        _ => 0,
    }
}

// The index of the unit that a record names.
pub fn unit_named(r: Record) -> usize
    ensures { (result ≡ unit_named (Ok r)) × (result < unit_count) }
{
    match r {
        Record::Unit(u) => index::<UNITS>(u.unit),
        Record::Commitment(c) => index::<UNITS>(c.unit),
        Record::Hour(h) => index::<UNITS>(h.unit),
        Record::Owner(o) => index::<UNITS>(o.unit),
        Record::Day(d) => index::<UNITS>(d.unit),
        _ => 0,
    }
}
