// Why the program ends without having done its work. Each reason is one line on standard error.
ghost use Rattle.std.specs.Prelude.{◌<◌, ◌≤◌};
ghost use Rattle.std.specs.Process.{exit_status};

use std::io::{ErrorKind, Write};
use std::process::ExitCode;
use std::{fmt, io, str};

#[derive(Clone, Copy)]
pub(crate) enum Failure {
    // A read or a write failed.
    Input(io::Error),
    Output(io::Error),
    // The input of many sheets ends inside one, or has one that is too long.
    LengthCutOff,
    SheetCutOff,
    SheetTooLong,
    // What no input leads to, and no proof rules out.
    NoRoom,
    // The program was called wrongly.
    Usage,
}

impl Failure {
    // The status that the program ends with.
    pub(crate) fn status(&self) -> ExitCode
        ensures { 0 < exit_status result }
    {
        match self {
            Failure::Usage => ExitCode::from(2),
            _ => ExitCode::FAILURE,
        }
    }
}

// The line, without its end.
impl fmt::Display for Failure {
    fn fmt<W: fmt::Write>(&self, f: &mut fmt::Formatter<W>) -> fmt::Result {
        match self {
            Failure::Input(error) => write!(f, "sheetrun: standard input: {}", Reason(*error)),
            Failure::Output(error) => write!(f, "sheetrun: standard output: {}", Reason(*error)),
            Failure::LengthCutOff => {
                f.write_str("sheetrun: standard input: ends inside the length of a sheet")
            }
            Failure::SheetCutOff => { f.write_str("sheetrun: standard input: ends inside a sheet") }
            Failure::SheetTooLong => {
                f.write_str("sheetrun: standard input: a sheet of more than 65536 bytes")
            }
            Failure::NoRoom => f.write_str("sheetrun: a buffer of its own is too small"),
            Failure::Usage => f.write_str("usage: sheetrun [--many] <sheet >log"),
        }
    }
}

// Why a call failed, in the system's own words: an error's text without the number that std writes after it.
#[derive(Clone, Copy)]
struct Reason(io::Error);

impl fmt::Display for Reason {
    fn fmt<W: fmt::Write>(&self, f: &mut fmt::Formatter<W>) -> fmt::Result {
        if self.0.kind() == ErrorKind::WriteZero {
            return f.write_str("takes nothing");
        }
        let mut buffer = [0u8; 128];
        let size = put_error(&mut buffer, self.0);
        let text = str::from_utf8(&buffer[..size]).unwrap_or("");
        match text.split_once(" (os error ") {
            Some((words, _)) => f.write_str(words),
            None => f.write_str(text),
        }
    }
}

// An error's text at the start of the buffer, cut off where it is longer; answers where it ends.
fn put_error(buffer: &mut [u8; 128], error: io::Error) -> usize
    ensures { result ≤ 128 }
{
    let mut rest = &mut buffer[..];
    let _ = write!(rest, "{error}");
    128usize.saturating_sub(rest.len())
}
