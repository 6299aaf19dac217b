//! The arguments of the command line, and the output if they request help or have an error.
ghost use Rattle.std.specs.Prelude.{◌≡◌, ◌≢◌, ◌⊎◌, IfErr, IfOk};
ghost use Rattle.clap.specs.Words.{kind_of};
ghost use Rattle.command_line.specs.Invocations.{usage_status_of};

use crate::status::{DONE, OUT_OF_MEMORY, USAGE};
use clap::Error;
use clap::error::ErrorKind;
use std::env::Env;
use std::io::Write;
use std::{env, io};

/// Prints help or the version on the output, or a usage error on `errors`, and returns the status. If memory ran
/// out, prints nothing.
pub fn print_usage<W: Write, E: Write>(
    error: &Error,
    output: &mut W,
    errors: &mut E,
) -> io::Result<u8>
    ensures status { IfOk result (λ status. status ≡ usage_status_of (kind_of error.now)) }
    ensures memory { kind_of error.now ≡ ErrorKind.OutOfMemory → result ≡ Ok 4 }
    ensures output { usage_status_of (kind_of error.now) ≢ 0 → output.new ≡ output.old }
    ensures errors { usage_status_of (kind_of error.now) ≢ 64 → errors.new ≡ errors.old }
{
    match error.kind() {
        ErrorKind::DisplayHelp | ErrorKind::DisplayVersion => {
            write!(output, "{error}")?;
            Ok(DONE)
        }
        ErrorKind::OutOfMemory => Ok(OUT_OF_MEMORY),
        _ => {
            write!(errors, "{error}")?;
            Ok(USAGE)
        }
    }
}

/// Returns the arguments, of which the first is the program's name. If memory runs out or an argument is not
/// UTF-8, the error is the exit status.
pub fn command_args<R: Env + Eprint + AllocGlobal>(rt: &R) -> Result<Vec<String>, u8>
    ensures { IfErr result (λ status. (status ≡ 4) ⊎ (status ≡ 64)) }
{
    match env::args(rt) {
        Ok(words) => words.collect(rt.alloc()).map_err(|_| OUT_OF_MEMORY),
        Err(error) if error.kind() == io::ErrorKind::OutOfMemory => Err(OUT_OF_MEMORY),
        Err(_) => {
            let _ = eprintln!(rt; "error: an argument is not UTF-8");
            Err(USAGE)
        }
    }
}
