// A run over an input, in whatever parts it is read.
ghost use Rattle.std.specs.Prelude.{◌≡◌, [], ◌+◌, ◌-◌, ◌^◌, ◌≤◌, ◌<◌, IfOk, OnOk, length};
ghost use Rattle.std.specs.Io.KnownBytes.{Keeps, Appends};
ghost use Rattle.report.specs.Passes.{state_of, at_first, emptied, room};
ghost use Rattle.ledger.specs.Unread.{unread};
ghost use Rattle.ledger.specs.Input.{record_most, IsCut, outcome, outlook, ReadsOn, Turns, Follows};

use crate::input::Input;
use crate::standing::Ledger;
use arrayvec::ArrayVec;
use report::pass::Stop;
use report::standing::Report;
use std::io;
use std::io::{ErrorKind, Read, Write};
use std::ops::ControlFlow;
use thiserror::Error;

// Why a run ends without its last line.
#[derive(Debug, Drop, Error)]
pub(crate) enum Failure {
    #[error("standard input: {0}")]
    Input(io::Error),
    #[error("standard output: {0}")]
    Output(io::Error),
    // The counts might not fit 64 bits.
    #[error("standard input: too long to count")]
    TooLong,
}

impl<const IN: usize, const OUT: usize> Ledger<IN, OUT> {
    pub(crate) fn new() -> Self
        ensures report { state_of result.report result.text.items ≡ at_first }
        ensures input { unread result.input ≡ [] }
    {
        Self {
            report: Report::new(),
            text: ArrayVec::new(),
            input: Input::new(),
        }
    }

    // All that is to be printed goes to the output.
    fn print<W: Write>(&mut self, output: &mut W) -> Result<(), Failure>
        ensures printed { OnOk result (Appends (W.contents output.old) (W.contents output.new) self.old.text.items) }
        ensures report { OnOk result (state_of self.new.report self.new.text.items ≡ emptied (state_of self.old.report self.old.text.items)) }
        ensures input { unread self.new.input ≡ unread self.old.input }
    {
        output
            .write_all(self.text.as_slice())
            .map_err(Failure::Output)?;
        self.text.clear();
        Ok(())
    }

    // Reads once, after the bytes that are there. At the end of the input the last lines are printed, and no turn follows.
    fn read_more<R: Read, W: Write>(
        &mut self,
        input: &mut R,
        output: &mut W,
    ) -> Result<ControlFlow<()>, Failure>
        requires { length self.old.text.items + room ≤ OUT }
        ensures { record_most ≤ IN → IsCut (unread self.old.input) → IfOk result (λ next. Follows
            (outlook (W.contents output.old) self.old (R.remaining input.old)) (W.contents output.new)
            (ReadsOn (W.contents output.old) (W.contents output.new) (R.remaining input.old) (R.remaining input.new) self.old self.new) next) }
    {
        // `as`: no `From` between `usize` and `u64`.
        if u64::MAX - 1 - IN as u64 <= self.report.tried() {
            return Err(Failure::TooLong);
        }
        let count = match self.input.read_from(input) {
            Ok(count) => count,
            Err(e) if e.kind() == ErrorKind::Interrupted => return Ok(ControlFlow::Continue(())),
            Err(e) => return Err(Failure::Input(e)),
        };
        if count != 0 {
            return Ok(ControlFlow::Continue(()));
        }
        let Ok(()) = self.report.finish(self.input.unread(), &mut self.text) else {
            unreachable!()
        };
        self.print(output)?;
        Ok(ControlFlow::Break(()))
    }

    // Tries the records that are there, and prints or reads where there is need. No turn follows the last line. Input and output are
    // the caller's, and lent to each turn; the three stops have names, and there is no fourth.
    fn take_turn<R: Read, W: Write>(
        &mut self,
        input: &mut R,
        output: &mut W,
    ) -> Result<ControlFlow<()>, Failure>
        ensures { record_most ≤ IN → IfOk result (λ next. Follows
            (outlook (W.contents output.old) self.old (R.remaining input.old)) (W.contents output.new)
            (Turns (W.contents output.old) (W.contents output.new) (R.remaining input.old) (R.remaining input.new) self.old self.new) next) }
    {
        let pass = self.report.take(self.input.unread(), &mut self.text);
        self.input.consume(pass.next);
        match pass.stop {
            Stop::Full => {
                self.print(output)?;
                Ok(ControlFlow::Continue(()))
            }
            Stop::Broken => {
                let Ok(()) = self.report.close(&mut self.text) else {
                    unreachable!()
                };
                self.print(output)?;
                Ok(ControlFlow::Break(()))
            }
            Stop::Partial => self.read_more(input, output),
        }
    }

    // In whatever parts the input is read, what is printed is what the whole of it is answered with, if the buffer holds a whole
    // record. A proved loop has to end, and nothing says that the input does: the turns are counted, to a number that no run
    // gets to.
    pub(crate) fn run<R: Read, W: Write>(
        &mut self,
        input: &mut R,
        output: &mut W,
    ) -> Result<(), Failure>
        ensures { record_most ≤ IN → OnOk result (Keeps (outlook (W.contents output.old) self.old (R.remaining input.old)) (W.contents output.new)) }
    {
        for _ in 0..u64::MAX {
            if self.take_turn(input, output)?.is_break() {
                return Ok(());
            }
        }
        Err(Failure::TooLong)
    }
}
