// The rows of refusal, over what they ask beyond the record.
#![tactic(auto, unfolding(crate::specs::Refusal::refusal_of, crate::specs::Refusal::in_range, crate::specs::Hours::hour_index, records::specs::Kinds::fault_number))]

ghost use Rattle.std.specs.Prelude.{◌≡◌, false, ◌&&◌, eqb, leb, cond, Ok, Err};
ghost use Rattle.records.specs.declared.format.Record.TheVariants as records;
ghost use Rattle.records.specs.declared.format.Record.TheVariants.{Year, Area, Commitment, Hour, Load, Post, Owner, Day};
ghost use Rattle.rules.specs.Hours.{derated};
ghost use Rattle.rules.specs.declared.refusal.Refusal.TheVariants.{NoYear, OutOfRange, NotEntered};
ghost use Rattle.rules.specs.Refusal.{refusal_of, row_number, number_of, IsRow};
ghost use Rattle.rules.specs.Rules.{asked_of};

use crate::day::day_hour;
use crate::hour::{hour_index, is_derated};
use crate::ranges::{
    area_fits, commitment_fits, hour_fits, load_fits, owner_fits, post_fits, unit_fits, year_fits,
};
use calendar::delivery_year::KnownDate;
use capacity::InstalledWatts;
use money::area::Undistributed;
use records::format::{
    AreaRecord, CommitmentRecord, DayRecord, Fault, HourRecord, LoadRecord, OwnerRecord, Record,
    UnitRecord,
};

// Why a record is refused: the rows, in the order of their numbers from 1.
#[derive(Clone, Copy)]
pub enum Refusal {
    Broken,
    UnknownTag,
    WrongLength,
    NoYear,
    SecondYear,
    OutOfRange,
    NotEntered,
    SecondUnit,
    DeratedOut,
    NotLater,
    Undistributed,
}

impl From<Refusal> for u32 {
    ghost from_gives = { λ row n. n ≡ row_number row };

    fn from(row: Refusal) -> u32 {
        // `as`: the variants' numbers from 0, and nothing is lost.
        row as u32 + 1
    }
}

// What the rows ask, of the area and the unit that a record names. Flags with values beside them, and no Option: the fields are
// public, and an Option there would ask another shape of a caller that fills them; `asked_of` and `refusal_of` speak of this struct
// field by field, and a row that asks a value comes after the one that asks the flag.
#[derive(Clone, Copy)]
pub struct Asked {
    // 0 before a year is entered.
    pub year: u32,
    // Whether the area and the unit are entered.
    pub area: bool,
    pub unit: bool,
    // The unit's installed capacity.
    pub installed: InstalledWatts,
    // The index of its last accepted hour; 0 where it has none.
    pub last: u64,
    // Of a Post: whether money is left over and the area's obligations add up to 0. No value is beside it.
    pub undistributed: bool,
}

// Rows 1 to 3.
impl From<Fault> for Refusal {
    ghost from_gives = { IsRow };

    fn from(fault: Fault) -> Self {
        match fault {
            Fault::Broken => Refusal::Broken,
            Fault::UnknownTag => Refusal::UnknownTag,
            Fault::WrongLength => Refusal::WrongLength,
        }
    }
}

// Row 11.
impl From<Undistributed> for Refusal {
    ghost from_gives = { λ _ row. row_number row ≡ 11 };

    fn from(_: Undistributed) -> Self {
        Refusal::Undistributed
    }
}

// Row 9.
fn derated_out(i: InstalledWatts, r: HourRecord) -> bool
    ensures { result ≡ (eqb r.kind derated && leb i.0 r.derating) }
{
    is_derated(r) && i.watts() <= u64::from(r.derating)
}

impl Asked {
    // What rows 1 to 10 ask, of the area and the unit that a record names, and of the unit's last hour.
    pub fn new(year: u32, area: AreaRecord, unit: UnitRecord, last: u64) -> Self
        ensures { result ≡ asked_of year area unit last false }
    {
        Self {
            year,
            area: 0 < area.area,
            unit: 0 < unit.unit,
            installed: unit.rating.installed,
            last,
            undistributed: false,
        }
    }

    fn admit_year(self, y: u32) -> Result<(), Refusal>
        ensures { number_of result ≡ refusal_of self (Ok (Year y)) }
    {
        if self.year != 0 {
            return Err(Refusal::SecondYear);
        }
        if !year_fits(y) {
            return Err(Refusal::OutOfRange);
        }
        Ok(())
    }

    // Rows 4 and 6 of a record that is no Year.
    fn admit_fit(self, fits: bool) -> Result<(), Refusal>
        ensures { result ≡ cond (eqb self.year 0) (Err NoYear) (cond fits (Ok tt) (Err OutOfRange)) }
    {
        if self.year == 0 {
            return Err(Refusal::NoYear);
        }
        if !fits {
            return Err(Refusal::OutOfRange);
        }
        Ok(())
    }

    // Rows 4, 6 and 7 of a record that is of a unit.
    fn admit_of_unit(self, fits: bool) -> Result<(), Refusal>
        ensures { result ≡ cond (eqb self.year 0) (Err NoYear) (cond fits (cond self.unit (Ok tt) (Err NotEntered)) (Err OutOfRange)) }
    {
        self.admit_fit(fits)?;
        if !self.unit {
            return Err(Refusal::NotEntered);
        }
        Ok(())
    }

    fn admit_area(self, r: AreaRecord) -> Result<(), Refusal>
        ensures { number_of result ≡ refusal_of self (Ok (Area r)) }
    {
        self.admit_fit(area_fits(r))
    }

    // No twin of `admit_post`, which has the same shape: they ask different rows.
    fn admit_unit(self, r: UnitRecord) -> Result<(), Refusal>
        ensures { number_of result ≡ refusal_of self (Ok (records.Unit r)) }
    {
        self.admit_fit(unit_fits(r))?;
        if !self.area {
            return Err(Refusal::NotEntered);
        }
        if self.unit {
            return Err(Refusal::SecondUnit);
        }
        Ok(())
    }

    fn admit_commitment(self, r: CommitmentRecord) -> Result<(), Refusal>
        ensures { number_of result ≡ refusal_of self (Ok (Commitment r)) }
    {
        self.admit_of_unit(commitment_fits(self.year, r))
    }

    // The rows of an Hour alone.
    #[inline(always)]
    pub fn admit_hour(self, r: HourRecord, known: KnownDate) -> Result<(), Refusal>
        ensures { number_of result ≡ refusal_of self (Ok (Hour r)) }
    {
        self.admit_of_unit(hour_fits(self.year, r, known))?;
        if derated_out(self.installed, r) {
            return Err(Refusal::DeratedOut);
        }
        if hour_index(self.year, r, known) <= self.last {
            return Err(Refusal::NotLater);
        }
        Ok(())
    }

    fn admit_load(self, r: LoadRecord) -> Result<(), Refusal>
        ensures { number_of result ≡ refusal_of self (Ok (Load r)) }
    {
        self.admit_fit(load_fits(r))?;
        if !self.area {
            return Err(Refusal::NotEntered);
        }
        Ok(())
    }

    fn admit_post(self, r: u32) -> Result<(), Refusal>
        ensures { number_of result ≡ refusal_of self (Ok (Post r)) }
    {
        self.admit_fit(post_fits(r))?;
        if !self.area {
            return Err(Refusal::NotEntered);
        }
        if self.undistributed {
            return Err(Refusal::Undistributed);
        }
        Ok(())
    }

    fn admit_owner(self, r: OwnerRecord) -> Result<(), Refusal>
        ensures { number_of result ≡ refusal_of self (Ok (Owner r)) }
    {
        self.admit_of_unit(owner_fits(r))
    }

    // The rows of a Day are those of its first hour, which decides for all.
    #[tactic(auto, using(crate::proofs::DayRows::day_row))]
    #[inline(always)]
    pub fn admit_day(self, r: DayRecord, known: KnownDate) -> Result<(), Refusal>
        ensures { number_of result ≡ refusal_of self (Ok (Day r)) }
    {
        self.admit_hour(day_hour(r, 1), known)
    }

    // The first row that fits a record that the frame takes: one of 4 to 11, if any does.
    pub fn admit(self, r: Record, known: KnownDate) -> Result<(), Refusal>
        ensures { number_of result ≡ refusal_of self (Ok r) }
    {
        match r {
            Record::Year(y) => self.admit_year(y),
            Record::Area(x) => self.admit_area(x),
            Record::Unit(x) => self.admit_unit(x),
            Record::Commitment(x) => self.admit_commitment(x),
            Record::Hour(x) => self.admit_hour(x, known),
            Record::Load(x) => self.admit_load(x),
            Record::Post(x) => self.admit_post(x),
            Record::Owner(x) => self.admit_owner(x),
            Record::Day(x) => self.admit_day(x, known),
        }
    }
}
