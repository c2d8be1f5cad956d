// The report: what is printed, and the records of a stream, each tried, counted and answered.
#![tactic(auto)]

pub mod buffer;
pub mod laws;
pub mod pass;
mod slice;
pub mod standing;
mod text;
