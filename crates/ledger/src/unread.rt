// What is done with the bytes of an input.
ghost use Rattle.std.specs.Prelude.{◌≡◌, [], ◌+◌, ◌-◌, ◌≤◌, length, take, drop};
ghost use Rattle.ledger.specs.Unread.{unread, Reads};

use crate::input::Input;
use std::io;
use std::io::Read;

// Moves the bytes between two places of a slice to its start.
fn carry(bytes: &mut [u8], from: usize, to: usize)
    requires { (from ≤ to) × (to ≤ length bytes.old) }
    ensures { take (to - from) bytes.new ≡ take (to - from) (drop from bytes.old) }
{
    bytes.copy_within(from..to, 0);
}

impl<const SIZE: usize> Input<SIZE> {
    pub(crate) fn new() -> Self
        ensures { unread result ≡ [] }
    {
        Self {
            bytes: [0; SIZE],
            end: 0,
        }
    }

    pub(crate) fn unread(&self) -> &[u8]
        ensures value { result.now ≡ unread self.now }
        ensures len { length result.now ≡ self.now.end }
    {
        &self.bytes[..self.end]
    }

    // Moves what follows the first n bytes to the start.
    pub(crate) fn consume(&mut self, n: usize)
        requires { n ≤ self.old.end }
        ensures value { unread self.new ≡ drop n (unread self.old) }
        ensures left { self.new.end + n ≡ self.old.end }
    {
        carry(&mut self.bytes, n, self.end);
        self.end -= n;
    }

    // Reads once, after the bytes that are there.
    pub(crate) fn read_from<R: Read>(&mut self, reader: &mut R) -> io::Result<usize>
        ensures { Reads SIZE (R.remaining reader.old) (R.remaining reader.new) (unread self.old) (unread self.new) result }
    {
        let bytes = &mut self.bytes[..];
        let count = reader.read(&mut bytes[self.end..])?;
        self.end += count;
        Ok(count)
    }
}
