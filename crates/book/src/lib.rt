// The book: units, commitments and posted sums, one value; records are entered, and areas posted.
#![tactic(auto)]

ghost use Rattle.std.specs.Prelude.{◌≡◌, [], ◌∷◌, ◌+◌, ◌≤◌, max, length};
ghost use Rattle.book.specs.Books.{empty_book};
ghost use Rattle.book.specs.Entered.{answered, entered};
ghost use Rattle.records.specs.Format.{hour_format, day_format};
ghost use Rattle.book.specs.Runs.{hour_kinds, first_accepted, run, first_hours, hours_between};
ghost use Rattle.book.specs.Steps.{Moved};

use calendar::delivery_year::KnownDate;
use capacity::rating::HourCounts;
use money::Cents;
use records::decode::{decode, first_day, first_hour};
use records::format::{AreaRecord, CommitmentRecord, DAY_BYTES, HOUR_BYTES, Record, UnitRecord};
use rules::day::{date_named, day_hour};
use rules::hour::date_of;
use rules::indices::{self, area_named, index, unit_named};
use rules::refusal::{Asked, Refusal};
use std::marker::Model;

// A unit: its record, its owner, and what its accepted hours come to; by default all zeros, which is no unit.
#[derive(Clone, Copy, Default)]
pub struct UnitEntry {
    entry: UnitRecord,
    // The number of the party that owns it; 0 where it has no owner, and no Option: parties are numbered from 1.
    owner: u32,
    hours: HourCounts,
    // The index of the last accepted hour; 0 where there is none, and no Option: every hour is then later.
    last: u64,
}

// What has been entered, each at its number less 1. What is all zeros is not entered, as no record has the number 0: `Asked::new`
// reads it so, and a post passes it over, since it names no area and no unit. An Option would say no more than these zeros, which
// the facts of the definitions have too.
#[derive(Drop)]
pub struct Book {
    // 0 before a year is entered.
    year: u32,
    areas: [AreaRecord; Book::AREAS],
    units: [UnitEntry; Book::UNITS],
    commitments: [CommitmentRecord; Book::COMMITMENTS],
    // By area and then party.
    obligations: [[u32; Book::PARTIES]; Book::AREAS],
    posted: [[Cents; Book::PARTIES]; Book::AREAS],
}

// The records at the start of a slice that `hours` took, and their bytes.
#[derive(Clone, Copy)]
pub struct Taken {
    pub bytes: usize,
    pub records: usize,
}

// Clauses see a book as what has been entered; all of that is in its ranges.
impl Model for Book {
    ghost use Rattle.book.specs.Books.{Book as Entered};

    ghost Value = { Entered };

    ghost use Rattle.book.specs.Seen.{seen, IsSound};

    ghost view = { seen };

    ghost invariant = { IsSound };
}

impl Book {
    pub const AREAS: usize = indices::AREAS;

    pub const UNITS: usize = indices::UNITS;

    pub const PARTIES: usize = indices::PARTIES;

    pub const COMMITMENTS: usize = indices::COMMITMENTS;

    // Pairs of an area and a party.
    pub const PAIRS: usize = Book::AREAS * Book::PARTIES;

    // A book with nothing entered.
    pub fn new() -> Self
        ensures { result ≡ empty_book }
    {
        Self {
            year: 0,
            areas: [AreaRecord::default(); Book::AREAS],
            units: [UnitEntry::default(); Book::UNITS],
            commitments: [CommitmentRecord::default(); Book::COMMITMENTS],
            obligations: [[0; Book::PARTIES]; Book::AREAS],
            posted: [[Cents::zero(); Book::PARTIES]; Book::AREAS],
        }
    }

    // One string of bytes: counted, or refused. Only a Post has lines other than zero.
    pub fn enter(&mut self, bytes: &[u8]) -> Result<[Cents; Book::PARTIES], Refusal>
        ensures { answered result self.new ≡ entered self.old bytes.now }
    {
        let r = decode(bytes)?;
        let i = area_named(r);
        let j = unit_named(r);
        let unit = self.units[j];
        let asked = Asked::new(self.year, self.areas[i], unit.entry, unit.last);
        let date = date_named(self.year, r);
        asked.admit(r, date)?;
        match r {
            Record::Year(y) => self.year = y,
            Record::Area(a) => self.areas[i] = a,
            Record::Unit(u) => self.units[j] = UnitEntry::new(u),
            Record::Commitment(c) => {
                let k = index::<{ Book::COMMITMENTS }>(c.number);
                self.commitments[k] = c;
            }
            Record::Hour(h) => self.units[j] = unit.with_hour(self.year, h, date),
            Record::Load(l) => {
                let p = index::<{ Book::PARTIES }>(l.party);
                self.obligations[i][p] = l.obligation;
            }
            Record::Post(_) => return self.post(i),
            Record::Owner(o) => self.units[j] = unit.with_owner(o),
            Record::Day(d) => self.units[j] = unit.with_day(self.year, d, date),
        }
        Ok([Cents::zero(); Book::PARTIES])
    }

    // The next record of a slice, if it is an Hour that is accepted: how many bytes it has; else 0, and the book stays. Beside `enter`,
    // which goes by `decode`: with that a run is slower (docs/DECISIONS.md, 41).
    fn enter_hour(&mut self, s: &[u8], date: &mut KnownDate) -> usize
        ensures value { result ≡ first_accepted (hour_format ∷ []) self.old s.now }
        ensures book { Moved self.old s.now result self.new }
    {
        let Some(h) = first_hour(s) else {
            return 0;
        };
        let j = index::<{ Book::UNITS }>(h.unit);
        let unit = self.units[j];
        let known = date.or_known(date_of(self.year, h));
        *date = known;
        let asked = Asked::new(self.year, self.areas[0], unit.entry, unit.last);
        if asked.admit_hour(h, known).is_err() {
            return 0;
        }
        self.units[j] = unit.with_hour(self.year, h, known);
        HOUR_BYTES
    }

    // The same of a Day.
    fn enter_day(&mut self, s: &[u8], date: &mut KnownDate) -> usize
        ensures value { result ≡ first_accepted (day_format ∷ []) self.old s.now }
        ensures book { Moved self.old s.now result self.new }
    {
        let Some(d) = first_day(s) else {
            return 0;
        };
        let j = index::<{ Book::UNITS }>(d.unit);
        let unit = self.units[j];
        let known = date.or_known(date_of(self.year, day_hour(d, 1)));
        *date = known;
        let asked = Asked::new(self.year, self.areas[0], unit.entry, unit.last);
        if asked.admit_day(d, known).is_err() {
            return 0;
        }
        self.units[j] = unit.with_day(self.year, d, known);
        DAY_BYTES
    }

    // The next record, if it is an Hour or a Day that is accepted.
    fn enter_next(&mut self, s: &[u8], date: &mut KnownDate) -> usize
        ensures value { result ≡ first_accepted hour_kinds self.old s.now }
        ensures book { Moved self.old s.now result self.new }
    {
        let bytes = self.enter_hour(s, date);
        if bytes != 0 {
            return bytes;
        }
        self.enter_day(s, date)
    }

    // The Hour and Day records at the start of a slice, entered one after another: up to the first record that is anything else or
    // would be refused. They come by the date, which is worked out once for as many as have it.
    pub fn hours(&mut self, s: &[u8]) -> Taken
        ensures { run result.bytes result.records self.new ≡ first_hours self.old s.now }
    {
        let mut date = KnownDate::none();
        let mut taken = Taken {
            bytes: 0,
            records: 0,
        };
        loop {
            let bytes = self.enter_next(&s[taken.bytes..], &mut date);
            if bytes == 0 {
                return taken;
            }
            taken = Taken {
                bytes: taken.bytes + bytes,
                records: taken.records + 1,
            };
        }
    }

    // `hours` between two places of a slice, whatever they are: nothing lies beyond its end, and nothing between a place and an earlier
    // one.
    pub fn hours_between(&mut self, s: &[u8], from: usize, to: usize) -> Taken
        ensures value { run (from + result.bytes) result.records self.new ≡ hours_between self.old s.now from to }
        ensures inside { from + result.bytes ≤ max from (length s.now) }
    {
        let end = to.min(s.len());
        if end < from {
            return Taken {
                bytes: 0,
                records: 0,
            };
        }
        self.hours(&s[from..end])
    }
}

pub mod laws;
mod post;
mod units;
