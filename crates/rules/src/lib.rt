// The rules: what a record names, the rows of refusal, and what an hour and a day count. What needs no state of the book.
#![tactic(auto)]

pub mod day;
pub mod hour;
pub mod indices;
pub mod laws;
mod ranges;
pub mod refusal;
