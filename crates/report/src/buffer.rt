// Where what is printed is put: a text, the most bytes that it may have, and where it lies, if that is a slice of the caller's.
ghost use Rattle.std.specs.Prelude.{◌≡◌, ℕ, List, [], cond, ◌++◌, ◌+◌, leb, length, take};
ghost use Rattle.std.specs.Io.Cursor.{cursor_position, cursor_inner};
ghost use Rattle.report.specs.Buffers.{Stays};

use arrayvec::ArrayVec;
use std::io::Cursor;

pub trait Buffer {
    ghost text: { Self → List ℕ };

    ghost size: { Self → ℕ };

    ghost place: { Self → ℕ };

    // How many bytes more the text may have.
    fn room(&self) -> usize
        ensures { result + length (text self.now) ≡ size self.now };

    // Puts bytes at the end of the text; where there is no room for all of them, none.
    fn put(&mut self, bytes: &[u8])
        ensures text { text self.new
            ≡ cond (leb (length (text self.old) + length bytes.now) (size self.old)) (text self.old ++ bytes.now) (text self.old) }
        ensures stays { Stays size place self.old self.new };

    fn as_slice(&self) -> &[u8]
        ensures { result.now ≡ text self.now };

    // Empties the text, once it is printed.
    fn clear(&mut self)
        ensures text { text self.new ≡ [] }
        ensures stays { Stays size place self.old self.new };
}

impl<const SIZE: usize> Buffer for ArrayVec<u8, SIZE> {
    ghost text = { λ v. v.items };

    ghost size = { λ v. SIZE };

    ghost place = { λ v. 0 };

    fn room(&self) -> usize {
        self.remaining_capacity()
    }

    fn put(&mut self, bytes: &[u8]) {
        let _ = self.try_extend_from_slice(bytes);
    }

    fn as_slice(&self) -> &[u8] {
        ArrayVec::as_slice(self)
    }

    fn clear(&mut self) {
        ArrayVec::clear(self);
    }
}

// A slice of any length, whose text is what stands before the position; past the end there is no room.
impl Buffer for Cursor<&mut [u8]> {
    ghost text = { λ c. take (cursor_position c) (cursor_inner c).now };

    ghost size = { λ c. length (cursor_inner c).now };

    ghost place = { λ c. (cursor_inner c).ghost_name };

    fn room(&self) -> usize {
        // `as`, here and below: no `From` between `usize` and `u64`.
        (self.get_ref().len() as u64).saturating_sub(self.position()) as usize
    }

    fn put(&mut self, bytes: &[u8]) {
        // A position past the end has no room, and no bytes to slice.
        if bytes.is_empty() || self.room() < bytes.len() {
            return;
        }
        let at = self.position() as usize;
        self.get_mut()[at..at + bytes.len()].copy_from_slice(bytes);
        self.set_position((at + bytes.len()) as u64);
    }

    fn as_slice(&self) -> &[u8] {
        let bytes = self.get_ref();
        &bytes[..bytes.len() - self.room()]
    }

    fn clear(&mut self) {
        self.set_position(0);
    }
}
