// Numbers: ranges, the parts of signed numbers, and the split.
#![tactic(auto)]

pub mod laws;
pub mod range;
pub mod signed;
pub mod split;
