// The next record of a stream.
#![tactic(auto, unfolding(crate::specs::Stream::next_record))]

ghost use Rattle.std.specs.Prelude.{◌≡◌};
ghost use Rattle.records.specs.Stream.{next_record};

use crate::decode::{HEAD_BYTES, LENGTH_MOST, pair};

// Three outcomes by name, which an Option in a Result would not say plainer.
#[derive(Clone, Copy)]
pub enum Next {
    // A whole record: where it ends.
    Whole(usize),
    // Broken for certain: no bytes that follow make it a record.
    Broken,
    // Not whole yet: more bytes are needed.
    Partial,
}

// The record at the start of these bytes.
pub fn next_record(s: &[u8]) -> Next
    ensures { result ≡ next_record s.now }
{
    if s.len() < HEAD_BYTES {
        return Next::Partial;
    }
    let stated = pair(s, 1);
    if LENGTH_MOST < stated {
        return Next::Broken;
    }
    let end = HEAD_BYTES + usize::from(stated);
    if s.len() < end {
        Next::Partial
    } else {
        Next::Whole(end)
    }
}
