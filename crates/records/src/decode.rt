// From bytes to a record.
#![tactic(auto, unfolding(crate::specs::Format::number_at, crate::specs::Decoded::is_broken, crate::specs::Decoded::of_length, crate::specs::Decoded::framed, crate::specs::Decoded::decoded))]

ghost use Rattle.std.specs.Prelude.{◌≡◌, ◌≢◌, false, ◌&&◌, ◌+◌, ◌≤◌, ◌<◌, eqb, leb, length, MatchResult, Ok};
ghost use Rattle.numbers.specs.Lists.{element};
ghost use Rattle.records.specs.declared.format.Fault.TheVariants.{WrongLength};
ghost use Rattle.records.specs.declared.format.Record.TheVariants as records;
ghost use Rattle.records.specs.declared.format.Record.TheVariants.{Year, Area, Commitment, Hour, Load, Post, Owner, Day};
ghost use Rattle.records.specs.Format.{number_at, bytes_of, values_of, year_format, area_format, unit_format, commitment_format, hour_format, load_format};
ghost use Rattle.records.specs.Format.{post_format, owner_format, day_format};
ghost use Rattle.records.specs.Kinds.{area_from, unit_from, commitment_from, hour_from, load_from, owner_from, day_from};
ghost use Rattle.records.specs.Decoded.{tag_of, length_of, is_broken, of_length, framed, decoded};
ghost use Rattle.records.specs.Stream.{first_hour, first_day};

use crate::format::{
    AREA_BYTES, AreaRecord, COMMITMENT_BYTES, CommitmentRecord, DAY_BYTES, DayRecord, Fault,
    HOUR_BYTES, HourRecord, LOAD_BYTES, LoadRecord, OWNER_BYTES, OwnerRecord, POST_BYTES, Record,
    UNIT_BYTES, UnitRecord, YEAR_BYTES,
};
use capacity::InstalledWatts;
use capacity::rating::Rating;

// The number in the byte, or the two, three or four bytes from a place on: a function each, as the library has one a width; three are
// read as four behind a 0. The room that each asks of the string from there on is a clause of each: a type for it would be longer.
fn byte(s: &[u8], from: usize) -> u32
    requires { from < length s.now }
    ensures { (result ≡ number_at 1 s.now from) × (result < 256) }
{
    u32::from(s[from])
}

pub(crate) fn pair(s: &[u8], from: usize) -> u16
    requires { from + 2 ≤ length s.now }
    ensures { result ≡ number_at 2 s.now from }
{
    u16::from_be_bytes([s[from], s[from + 1]])
}

fn triple(s: &[u8], from: usize) -> u32
    requires { from + 3 ≤ length s.now }
    ensures { result ≡ number_at 3 s.now from }
{
    u32::from_be_bytes([0, s[from], s[from + 1], s[from + 2]])
}

fn quad(s: &[u8], from: usize) -> u32
    requires { from + 4 ≤ length s.now }
    ensures { result ≡ number_at 4 s.now from }
{
    u32::from_be_bytes([s[from], s[from + 1], s[from + 2], s[from + 3]])
}

// A record's tag and length, and the most bytes of its value.
pub(crate) const HEAD_BYTES: usize = 3;

pub(crate) const LENGTH_MOST: u16 = 32;

// Row 1.
fn is_broken(s: &[u8]) -> bool
    ensures { result ≡ is_broken s.now }
{
    s.len() < HEAD_BYTES
        || LENGTH_MOST < pair(s, 1)
        || s.len() != HEAD_BYTES + usize::from(pair(s, 1))
}

fn hour_fields(s: &[u8]) -> HourRecord
    requires { bytes_of hour_format ≤ length s.now }
    ensures { result ≡ hour_from (values_of hour_format s.now) }
{
    HourRecord {
        unit: byte(s, 3),
        month: byte(s, 4),
        day: byte(s, 5),
        hour: byte(s, 6),
        kind: byte(s, 7),
        derating: quad(s, 8),
    }
}

fn day_fields(s: &[u8]) -> DayRecord
    requires { bytes_of day_format ≤ length s.now }
    ensures { result ≡ day_from (values_of day_format s.now) }
{
    DayRecord {
        unit: byte(s, 3),
        month: byte(s, 4),
        day: byte(s, 5),
        marks: triple(s, 6),
    }
}

// A string of bytes that row 1 does not fit.
#[derive(Clone, Copy)]
struct Framed<'a> {
    bytes: &'a [u8],
    ghost whole: { is_broken bytes.now ≡ false },
}

impl<'a> Framed<'a> {
    // Row 3.
    fn has_length(self, bytes: usize) -> Result<(), Fault>
        ensures { MatchResult result (λ ok. length self.entry.bytes.now ≡ bytes) (λ fault. (length self.entry.bytes.now ≢ bytes) × (fault ≡ WrongLength)) }
    {
        if self.bytes.len() == bytes {
            Ok(())
        } else {
            Err(Fault::WrongLength)
        }
    }

    // Of each kind: the record, if the length is that kind's. `year` and `post` are no twins: their numbers are a pair and a byte.
    fn year(self) -> Result<Record, Fault>
        ensures { result ≡ of_length year_format self.entry.bytes.now (λ l. Year (element l 0)) }
    {
        self.has_length(YEAR_BYTES)?;
        Ok(Record::Year(u32::from(pair(self.bytes, 3))))
    }

    fn area(self) -> Result<Record, Fault>
        ensures { result ≡ of_length area_format self.entry.bytes.now (λ l. Area (area_from l)) }
    {
        self.has_length(AREA_BYTES)?;
        Ok(Record::Area(AreaRecord {
            area: byte(self.bytes, 3),
            price: quad(self.bytes, 4),
        }))
    }

    fn unit(self) -> Result<Record, Fault>
        ensures { result ≡ of_length unit_format self.entry.bytes.now (λ l. records.Unit (unit_from l)) }
    {
        self.has_length(UNIT_BYTES)?;
        let s = self.bytes;
        Ok(Record::Unit(UnitRecord {
            unit: byte(s, 3),
            area: byte(s, 4),
            rating: Rating {
                installed: InstalledWatts::new(u64::from(quad(s, 5))),
                eford: quad(s, 9),
                eford5: quad(s, 13),
                efordyear: quad(s, 17),
                class: byte(s, 21),
            },
        }))
    }

    fn commitment(self) -> Result<Record, Fault>
        ensures { result ≡ of_length commitment_format self.entry.bytes.now (λ l. Commitment (commitment_from l)) }
    {
        self.has_length(COMMITMENT_BYTES)?;
        let s = self.bytes;
        Ok(Record::Commitment(CommitmentRecord {
            number: byte(s, 3),
            unit: byte(s, 4),
            party: byte(s, 5),
            first: u32::from(pair(s, 6)),
            last: u32::from(pair(s, 8)),
            watts: quad(s, 10),
        }))
    }

    fn hour(self) -> Result<Record, Fault>
        ensures { result ≡ of_length hour_format self.entry.bytes.now (λ l. Hour (hour_from l)) }
    {
        self.has_length(HOUR_BYTES)?;
        Ok(Record::Hour(hour_fields(self.bytes)))
    }

    fn load(self) -> Result<Record, Fault>
        ensures { result ≡ of_length load_format self.entry.bytes.now (λ l. Load (load_from l)) }
    {
        self.has_length(LOAD_BYTES)?;
        let s = self.bytes;
        Ok(Record::Load(LoadRecord {
            area: byte(s, 3),
            party: byte(s, 4),
            obligation: quad(s, 5),
        }))
    }

    fn post(self) -> Result<Record, Fault>
        ensures { result ≡ of_length post_format self.entry.bytes.now (λ l. Post (element l 0)) }
    {
        self.has_length(POST_BYTES)?;
        Ok(Record::Post(byte(self.bytes, 3)))
    }

    fn owner(self) -> Result<Record, Fault>
        ensures { result ≡ of_length owner_format self.entry.bytes.now (λ l. Owner (owner_from l)) }
    {
        self.has_length(OWNER_BYTES)?;
        Ok(Record::Owner(OwnerRecord {
            unit: byte(self.bytes, 3),
            party: byte(self.bytes, 4),
        }))
    }

    fn day(self) -> Result<Record, Fault>
        ensures { result ≡ of_length day_format self.entry.bytes.now (λ l. Day (day_from l)) }
    {
        self.has_length(DAY_BYTES)?;
        Ok(Record::Day(day_fields(self.bytes)))
    }

    fn record(self) -> Result<Record, Fault>
        ensures { result ≡ framed self.entry.bytes.now }
    {
        match byte(self.bytes, 0) {
            1 => self.year(),
            2 => self.area(),
            3 => self.unit(),
            4 => self.commitment(),
            5 => self.hour(),
            6 => self.load(),
            7 => self.post(),
            8 => self.owner(),
            9 => self.day(),
            _ => Err(Fault::UnknownTag),
        }
    }
}

// The record that a string of bytes is, or its fault where the frame refuses it.
pub fn decode(s: &[u8]) -> Result<Record, Fault>
    ensures { result ≡ decoded s.now }
{
    if is_broken(s) {
        return Err(Fault::Broken);
    }
    Framed { bytes: s }.record()
}

// The tag of an Hour and of a Day, and the length that each states.
const HOUR_TAG: u32 = 5;

const HOUR_LENGTH: u16 = 9;

const DAY_TAG: u32 = 9;

const DAY_LENGTH: u16 = 6;

// Whether a whole record of a tag and a length is at the start of a stream.
#[inline(always)]
fn begins_with(s: &[u8], tag: u32, stated: u16) -> bool
    ensures { result ≡ (leb (3 + stated) (length s.now) && (eqb (tag_of s.now) tag && eqb (length_of s.now) stated)) }
{
    HEAD_BYTES + usize::from(stated) <= s.len() && byte(s, 0) == tag && pair(s, 1) == stated
}

// The Hour record at the start of a stream, if its next record is one; so the Day record. `decode` without the other kinds, with which
// a run of hours is slower (docs/DECISIONS.md, 41).
pub fn first_hour(s: &[u8]) -> Option<HourRecord>
    ensures { result ≡ first_hour s.now }
{
    if begins_with(s, HOUR_TAG, HOUR_LENGTH) {
        Some(hour_fields(s))
    } else {
        None
    }
}

pub fn first_day(s: &[u8]) -> Option<DayRecord>
    ensures { result ≡ first_day s.now }
{
    if begins_with(s, DAY_TAG, DAY_LENGTH) {
        Some(day_fields(s))
    } else {
        None
    }
}
