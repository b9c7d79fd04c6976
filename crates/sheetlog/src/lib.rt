// What the program sheetrun does: reads a job sheet from standard input, runs it and prints its log (document 01, "One sheet,
// whole"). With the argument --many it reads many sheets, each after its length in four bytes, lowest first, and prints
// after each log a line with a digest of both stores and the tally, so that another program can be compared with it sheet by
// sheet. With --why and a level it prints in the place of the log after each event why that level waits (document 02, CR 3), and
// with --many-why, of many sheets, why each level does.
#![tactic(auto)]

mod answers;
mod failure;
mod log;
mod streams;
mod words;

ghost use Rattle.std.specs.Prelude.{ℕ, List, ◌≡◌, ◌≤◌, length, take, IfOk, IfNone, IfSome, OnOk};
ghost use Rattle.std.specs.Io.KnownBytes.{Consumes, IsAtEnd};
ghost use Rattle.sheethost.specs.Host.{four_bytes};

use failure::Failure;
use log::{Asked, Room, run_sheet};
use std::io::{Input, Read};
use std::process::ExitCode;
use std::rt::Env;
use streams::{read_rest, read_whole};
use words::{argument, level_in};

// The most bytes of a sheet; a set-up has no longer slave store, and no longer part of a log is kept.
const LARGE: usize = 65536;

// The bytes of the master store.
const MASTER: usize = 4096;

// The levels that --many-why asks about: all there are, and numbers that are none.
const ASKED: [u32; 19] = [
    0, 1, 2, 3, 4, 5, 6, 7, 8, 9, 10, 11, 12, 13, 14, 15, 16, 271, 4294967295,
];

// The length of the next sheet; none where the input ends.
fn next_size<R: Read>(input: &mut R) -> Result<Option<usize>, Failure>
    ensures end { IfOk result (λ next. IfNone next (IsAtEnd (R.remaining input.old))) }
    ensures size { IfOk result (λ next. IfSome next (λ size.
        (bs : List ℕ) × (length bs ≡ 4) × (size ≡ four_bytes bs) × Consumes (R.remaining input.old) (R.remaining input.new) bs)) }
{
    let mut header = [0u8; 4];
    let got = read_whole(input, &mut header)?;
    if got == 0 {
        return Ok(None);
    }
    if got < 4 {
        return Err(Failure::LengthCutOff);
    }
    Ok(Some(sheethost::four_bytes(header) as usize))
}

// The bytes of a sheet of that length, at the start of the buffer.
fn next_bytes<R: Read>(input: &mut R, buf: &mut [u8], size: usize) -> Result<(), Failure>
    ensures upper_bound { OnOk result (size ≤ length buf.new) }
    ensures bytes { OnOk result (Consumes (R.remaining input.old) (R.remaining input.new) (take size buf.new)) }
{
    if buf.len() < size {
        return Err(Failure::SheetTooLong);
    }
    if read_whole(input, &mut buf[..size])? < size {
        return Err(Failure::SheetCutOff);
    }
    Ok(())
}

// One sheet of many; false where there is no other.
fn run_next(
    input: &mut impl Read,
    output: &impl Print,
    buf: &mut [u8],
    room: Room,
    asked: Asked,
) -> Result<bool, Failure> {
    let Some(size) = next_size(input)? else {
        return Ok(false);
    };
    next_bytes(input, buf, size)?;
    run_sheet(output, &buf[..size], room, asked)?;
    Ok(true)
}

// Sheets until the input ends.
fn run_many(rt: &(impl Input + Print), levels: &[u32]) -> Result<(), Failure> {
    let mut input = rt.reader();
    let mut buf = [0u8; LARGE];
    let mut slave = [0u8; LARGE];
    let mut master = [0u8; MASTER];
    let mut page = [0u8; LARGE];
    let asked = Asked {
        levels,
        digests: true,
    };
    for _ in 0..u64::MAX {
        let room = Room {
            slave: &mut slave,
            master: &mut master,
            page: &mut page,
        };
        if !run_next(&mut input, rt, &mut buf, room, asked)? {
            return Ok(());
        }
    }
    Ok(())
}

// What follows the bytes of the longest sheet has no part in the judgement, but whoever writes to a pipe is not cut off.
fn read_past(input: &mut impl Read, size: usize, rest: &mut [u8]) -> Result<(), Failure> {
    if size < LARGE {
        return Ok(());
    }
    read_rest(input, rest)
}

fn run_one(rt: &(impl Input + Print), levels: &[u32]) -> Result<(), Failure> {
    let mut input = rt.reader();
    let mut buf = [0u8; LARGE];
    let mut slave = [0u8; LARGE];
    let mut master = [0u8; MASTER];
    let mut page = [0u8; LARGE];
    let size = read_whole(&mut input, &mut buf)?;
    read_past(&mut input, size, &mut page)?;
    let room = Room {
        slave: &mut slave,
        master: &mut master,
        page: &mut page,
    };
    let asked = Asked {
        levels,
        digests: false,
    };
    run_sheet(rt, &buf[..size], room, asked)
}

// One argument, which says what many sheets are to print.
fn run_named(rt: &(impl Input + Print), word: &[u8]) -> Result<(), Failure> {
    match word {
        b"--many" => run_many(rt, &[]),
        b"--many-why" => run_many(rt, &ASKED),
        _ => Err(Failure::Usage),
    }
}

// Two arguments: the level that the second names, and why it waits.
fn run_why(rt: &(impl Input + Print), word: &[u8], level: &[u8]) -> Result<(), Failure> {
    if word != b"--why".as_slice() {
        return Err(Failure::Usage);
    }
    match level_in(level) {
        Some(level) => run_one(rt, &[level]),
        None => Err(Failure::Usage),
    }
}

fn run_program(rt: &(impl Input + Print + Env)) -> Result<(), Failure> {
    let mut first = [0u8; 16];
    let mut second = [0u8; 16];
    let mut third = [0u8; 16];
    let Some(word) = argument(rt, 1, &mut first) else {
        return run_one(rt, &[]);
    };
    let Some(level) = argument(rt, 2, &mut second) else {
        return run_named(rt, word);
    };
    if argument(rt, 3, &mut third).is_some() {
        return Err(Failure::Usage);
    }
    run_why(rt, word, level)
}

// The program; answers its status: 0, 1 where a read or a write failed or the input was cut off, 2 where it was called wrongly.
// What failed is told on standard error, once; where not even that can be written there is nobody to tell, and the status
// still says it. A sheet's own fault is a line of the log, and no failure.
pub fn sheetrun(rt: &(impl Input + Print + Eprint + Env)) -> ExitCode {
    match run_program(rt) {
        Ok(()) => ExitCode::SUCCESS,
        Err(failure) => {
            let _ = rt.eprintln(failure);
            failure.status()
        }
    }
}
