// Standard input and output, where a call may fail, move less than asked, or be interrupted by a signal. One that is interrupted
// is made again. What a read leaves at the start of the buffer is what the input had next, for a reader whose bytes are known.
ghost use Rattle.std.specs.Prelude.{◌≡◌, ◌<◌, ◌≤◌, length, take, IfOk};
ghost use Rattle.std.specs.Io.KnownBytes.{Consumes, IsAtEnd};

use crate::failure::Failure;
use std::io;
use std::io::{ErrorKind, Read};

// One read. No bytes are the end of the input.
fn read_some<R: Read>(input: &mut R, buf: &mut [u8]) -> Result<usize, Failure>
    ensures upper_bound { IfOk result (λ n. n ≤ length buf.new) }
    ensures bytes { IfOk result (λ n. Consumes (R.remaining input.old) (R.remaining input.new) (take n buf.new)) }
    ensures end { IfOk result (λ n. n ≡ 0 → 0 < length buf.new → IsAtEnd (R.remaining input.new)) }
{
    // more turns than there will be: a loop has to end for what its calls answer, whatever that is
    for _ in 0..u64::MAX {
        match input.read(buf) {
            Ok(bytes) => return Ok(bytes),
            Err(error) => {
                if error.kind() != ErrorKind::Interrupted {
                    return Err(Failure::Input(error));
                }
            }
        }
    }
    Err(Failure::Input(io::Error::from(ErrorKind::Interrupted)))
}

// Reads until the buffer is full or the input ends; answers how many bytes.
pub(crate) fn read_whole<R: Read>(input: &mut R, buf: &mut [u8]) -> Result<usize, Failure>
    ensures upper_bound { IfOk result (λ n. n ≤ length buf.new) }
    ensures bytes { IfOk result (λ n. Consumes (R.remaining input.old) (R.remaining input.new) (take n buf.new)) }
    ensures end { IfOk result (λ n. n < length buf.new → IsAtEnd (R.remaining input.new)) }
{
    let mut done: usize = 0;
    while done < buf.len() {
        let more = read_some(input, &mut buf[done..])?;
        if more == 0 {
            break;
        }
        done += more;
    }
    Ok(done)
}

// Reads the input to its end and keeps nothing of it.
pub(crate) fn read_rest(input: &mut impl Read, buf: &mut [u8]) -> Result<(), Failure> {
    for _ in 0..u64::MAX {
        if read_whole(input, buf)? == 0 {
            return Ok(());
        }
    }
    Ok(())
}

// Writes the first bytes of a buffer.
pub(crate) fn write_first(output: &impl Print, buf: &[u8], size: usize) -> Result<(), Failure> {
    if buf.len() < size {
        return Err(Failure::NoRoom);
    }
    output.write_all(&buf[..size]).map_err(Failure::Output)
}
