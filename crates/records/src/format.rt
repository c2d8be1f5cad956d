// What a record holds, by kind. specs/Format.antt has each field's offset and range.
use capacity::rating::Rating;

// The bytes of a record of each kind: three of tag and length, and its value.
pub(crate) const YEAR_BYTES: usize = 5;

pub(crate) const AREA_BYTES: usize = 8;

pub(crate) const UNIT_BYTES: usize = 22;

pub(crate) const COMMITMENT_BYTES: usize = 14;

pub const HOUR_BYTES: usize = 12;

pub(crate) const LOAD_BYTES: usize = 9;

pub(crate) const POST_BYTES: usize = 4;

pub(crate) const OWNER_BYTES: usize = 5;

pub const DAY_BYTES: usize = 9;

#[derive(Clone, Copy, Default)]
pub struct AreaRecord {
    pub area: u32,
    // In cents per MW-day.
    pub price: u32,
}

#[derive(Clone, Copy, Default)]
pub struct UnitRecord {
    pub unit: u32,
    pub area: u32,
    pub rating: Rating,
}

#[derive(Clone, Copy, Default)]
pub struct CommitmentRecord {
    pub number: u32,
    pub unit: u32,
    pub party: u32,
    // Days of the delivery year; day 0 is 1 June.
    pub first: u32,
    pub last: u32,
    pub watts: u32,
}

#[derive(Clone, Copy)]
pub struct HourRecord {
    pub unit: u32,
    pub month: u32,
    pub day: u32,
    // Hour ending.
    pub hour: u32,
    // A number, since a record states any byte: to refuse another than 0 to 5 is the task of row 6.
    pub kind: u32,
    // In watts.
    pub derating: u32,
}

#[derive(Clone, Copy)]
pub struct LoadRecord {
    pub area: u32,
    pub party: u32,
    // In watts.
    pub obligation: u32,
}

#[derive(Clone, Copy)]
pub struct OwnerRecord {
    pub unit: u32,
    pub party: u32,
}

#[derive(Clone, Copy)]
pub struct DayRecord {
    pub unit: u32,
    pub month: u32,
    pub day: u32,
    // 24 bits, of which the lowest is the hour ending 1.
    pub marks: u32,
}

// What the frame refuses: rows 1, 2 and 3.
#[derive(Clone, Copy)]
pub enum Fault {
    Broken,
    UnknownTag,
    WrongLength,
}

// A record: the values of its kind, in range or not.
#[derive(Clone, Copy)]
pub enum Record {
    // The year.
    Year(u32),
    Area(AreaRecord),
    Unit(UnitRecord),
    Commitment(CommitmentRecord),
    Hour(HourRecord),
    Load(LoadRecord),
    // The area.
    Post(u32),
    Owner(OwnerRecord),
    Day(DayRecord),
}
