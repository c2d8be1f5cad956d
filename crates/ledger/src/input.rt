// The bytes that were read and are still to be tried.
ghost use Rattle.std.specs.Prelude.{◌≤◌};

// A buffer of SIZE bytes, whose first `end` are those bytes: a read fills it from there on, in place.
#[derive(Drop)]
pub(crate) struct Input<const SIZE: usize> {
    pub(crate) bytes: [u8; SIZE],
    pub(crate) end: usize,
    ghost within: { end ≤ SIZE },
}
