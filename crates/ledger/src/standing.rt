// Where a run stands between two reads.
ghost use Rattle.std.specs.Prelude.{◌+◌, ◌-◌, ◌^◌, ◌<◌};

use crate::input::Input;
use arrayvec::ArrayVec;
use report::standing::Report;

// The records that were tried, the text that is still to be printed, and the bytes that are still to be tried. What was read can be
// counted in 64 bits.
#[derive(Drop)]
pub(crate) struct Ledger<const IN: usize, const OUT: usize> {
    pub(crate) report: Report,
    pub(crate) text: ArrayVec<u8, OUT>,
    pub(crate) input: Input<IN>,
    ghost counts_fit: { report.tried + input.end < 2 ^ 64 - 1 },
}
