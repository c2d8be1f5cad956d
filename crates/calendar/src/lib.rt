// The calendar of the peak-hour availability book: dates, delivery years, holidays and peak hours.
// Document 01, Records and Hours; document 02, Items 1, 3 and 4; source document 002 (b). Each result is equated with its
// definition in specs/.
#![tactic(auto)]

pub mod delivery_year;
mod gregorian;
mod holidays;
pub mod hours;
pub mod laws;
mod peak;
pub mod question;
mod week;
