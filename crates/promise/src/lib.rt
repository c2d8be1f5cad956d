// The fresh reckoning (01, Area money), the promise, the run of a whole log, and the table of figures.
#![tactic(auto)]

pub mod laws;
pub mod log;
