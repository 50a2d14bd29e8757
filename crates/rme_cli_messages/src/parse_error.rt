//! The result of a command line that is no task: help, the version, or an error.

ghost use Rattle.std.specs.Prelude.{◌≡◌};
ghost use Rattle.rme_cli_messages.specs.FaultStatuses.{status_of_parse_error};

use crate::fault::CliFault;
use clap::error::ErrorKind;

/// The exit status for an error of this kind, or the fault that ends the program; `is_printed` says whether its text
/// could be written.
///
/// A refused word keeps its status even if its text cannot be written. Help and the version were requested, so it is a
/// fault if they cannot be written.
pub fn status_of_parse_error(kind: ErrorKind, is_printed: bool) -> Result<u8, CliFault>
    ensures { result ≡ status_of_parse_error kind is_printed }
{
    match kind {
        ErrorKind::OutOfMemory => Err(CliFault::NoMemory),
        ErrorKind::DisplayHelp | ErrorKind::DisplayVersion => {
            if is_printed {
                Ok(0)
            } else {
                Err(CliFault::WriteFailed)
            }
        }
        _ => Ok(2),
    }
}
