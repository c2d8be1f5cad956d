// Records: their format, the decoder, and the next record of a stream.
#![tactic(auto)]

pub mod decode;
pub mod format;
pub mod laws;
pub mod stream;
