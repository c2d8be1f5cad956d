// The ledger program: records from standard input are entered into a book, and the answers go to standard output.
#![tactic(auto)]

ghost use Rattle.std.specs.Prelude.{OnOk, IfSome};
ghost use Rattle.std.specs.Io.KnownBytes.{Appends};
ghost use Rattle.report.specs.Passes.{at_first, printed_from};

use crate::standing::Ledger;
use crate::turns::Failure;
use std::env::{Env, FillError};
use std::io::{IsTerminal, Read, Write};
use std::process::ExitCode;

mod input;
mod laws;
mod standing;
mod turns;
mod unread;

const BUFFER_BYTES: usize = 65536;

// In whatever parts the input is read, what is printed is what the whole of it is answered with.
fn run<R: Read, W: Write>(input: &mut R, output: &mut W) -> Result<(), Failure>
    ensures { OnOk result (IfSome (R.remaining input.old)
        (λ s. Appends (W.contents output.old) (W.contents output.new) (printed_from at_first s))) }
{
    Ledger::<BUFFER_BYTES, BUFFER_BYTES>::new().run(input, output)
}

fn has_argument(rt: &HostRuntime) -> bool {
    let mut start = [0u8; 1];
    !matches!(rt.arg(1, &mut start), Err(FillError::NotPresent))
}

// A run that begins and gets to no last line ends with status 1.
fn main(rt: HostRuntime) -> ExitCode {
    if has_argument(&rt) || rt.stdin().is_terminal() {
        let _ = eprintln!(rt; "ledger: reads records from standard input, as in: ledger <FILE");
        return ExitCode::SUCCESS;
    }
    if let Err(failure) = run(&mut rt.stdin(), &mut rt.stdout()) {
        let _ = eprintln!(rt; "ledger: {failure}");
        return ExitCode::FAILURE;
    }
    ExitCode::SUCCESS
}
