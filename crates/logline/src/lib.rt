// The text of each log line (document 01, "One sheet, whole"), written into a lent buffer.
#![tactic(auto)]

ghost use Rattle.std.specs.Prelude.{◌≡◌, ◌+◌, ◌≤◌, leb, length};
ghost use Rattle.std.proofs.lemmas.List.Edits.{sets};
ghost use Rattle.logline.specs.Text.{digits, field, line_text, has_room, place_after, out_after, put_decimal, put_decimal_after};
ghost use Rattle.act.specs.Entry.{ending_number};
ghost use Rattle.logline.specs.Line.{cycle_text, entry_text, post_text, stop_text, end_text, fault_text};

use act::{CycleEntry, Ending, Entry};

// How many decimal digits a number below 100,000 has; 5 of any other.
fn few_digits(n: u32) -> usize
    ensures { result ≡ length (digits 4 n) }
{
    match n {
        0..10 => 1,
        10..100 => 2,
        100..1000 => 3,
        1000..10000 => 4,
        _ => 5,
    }
}

// How many decimal digits a number has.
fn digit_count(n: u32) -> usize
    ensures { result ≡ length (digits 9 n) }
{
    if n < 100000 {
        return few_digits(n);
    }
    5 + few_digits(n / 100000)
}

// The decimal digits of a number. Most fields of a log have one digit, written at once; of more, counted before, the last is
// written first, each in its place.
fn put_digits(out: &mut [u8], at: usize, n: u32) -> usize
    requires { at + 10 ≤ length out.old }
    ensures value { result ≡ at + length (digits 9 n) }
    ensures out_after { out.new ≡ sets out.old at (digits 9 n) }
{
    if n < 10 {
        out[at] = (48 + n) as u8;
        return at + 1;
    }
    let size = digit_count(n);
    let mut rest = n;
    for left in (0..size).rev() {
        out[at + left] = (48 + rest % 10) as u8;
        rest /= 10;
    }
    at + size
}

// A buffer of that size has room for `count` bytes from `at` on.
fn has_bytes(size: usize, at: usize, count: usize) -> bool
    ensures { result ≡ leb (at + count) size }
{
    if size < count {
        return false;
    }
    at <= size - count
}

// A number by itself, in decimal, where there is room for the longest.
pub fn put_decimal(out: &mut [u8], at: usize, n: u32) -> usize
    ensures value { result ≡ put_decimal out.old at n }
    ensures out_after { out.new ≡ put_decimal_after out.old at n }
{
    if !has_bytes(out.len(), at, 10) {
        return at;
    }
    put_digits(out, at, n)
}

// A blank and a number.
fn put_field(out: &mut [u8], at: usize, n: u32) -> usize
    requires { at + 11 ≤ length out.old }
    ensures value { result ≡ at + 1 + length (digits 9 n) }
    ensures out_after { out.new ≡ sets out.old at (field n) }
{
    out[at] = 32;
    put_digits(out, at + 1, n)
}

// Room for the longest line of a log.
const LONGEST: usize = 96;

// A buffer of that size has room for the longest line from `at` on.
pub fn has_room(size: usize, at: usize) -> bool
    ensures { result ≡ has_room size at }
{
    has_bytes(size, at, LONGEST)
}

// A letter, numbers, and the end of the line, where there is room for the longest line.
fn put_line(out: &mut [u8], at: usize, letter: u8, numbers: &[u32]) -> usize
    requires { length numbers.now ≤ 8 }
    ensures value { result ≡ place_after out.old at (line_text letter numbers.now) }
    ensures out_after { out.new ≡ out_after out.old at (line_text letter numbers.now) }
{
    if !has_room(out.len(), at) {
        return at;
    }
    out[at] = letter;
    let mut next = at + 1;
    for number in numbers {
        next = put_field(out, next, *number);
    }
    out[next] = 10;
    next + 1
}

// 0 kept, 1 released, 2 released and marked.
fn ending_number(ending: Ending) -> u32
    ensures { result ≡ ending_number ending }
{
    match ending {
        Ending::Kept => 0,
        Ending::Released(_) => 1,
        Ending::Marked(_) => 2,
    }
}

fn put_cycle(out: &mut [u8], at: usize, entry: CycleEntry) -> usize
    ensures value { result ≡ place_after out.old at (cycle_text entry) }
    ensures out_after { out.new ≡ out_after out.old at (cycle_text entry) }
{
    let numbers = [
        entry.clock,
        entry.level as u32,
        entry.address,
        entry.bytes,
        entry.direction,
        entry.master_lane,
        entry.slave_lane,
        ending_number(entry.ending),
    ];
    put_line(out, at, b'C', &numbers)
}

// The line of a step's entry: G, C, R or I.
pub fn put_entry(out: &mut [u8], at: usize, entry: Entry) -> usize
    ensures value { result ≡ place_after out.old at (entry_text entry) }
    ensures out_after { out.new ≡ out_after out.old at (entry_text entry) }
{
    match entry {
        Entry::Idle(clock) => put_line(out, at, b'I', &[clock]),
        Entry::Grant(clock, owner) => put_line(out, at, b'G', &[clock, owner as u32]),
        Entry::Cycle(cycle) => put_cycle(out, at, cycle),
        Entry::Release(clock, level, _) => put_line(out, at, b'R', &[clock, level as u32]),
    }
}

// The line of a post: P, clock, level, refusal or 0. Any number may be handed in as the refusal's: the promise holds of each.
pub fn put_post(out: &mut [u8], at: usize, clock: u32, level: u32, number: u32) -> usize
    ensures value { result ≡ place_after out.old at (post_text clock level number) }
    ensures out_after { out.new ≡ out_after out.old at (post_text clock level number) }
{
    put_line(out, at, b'P', &[clock, level, number])
}

// The line of an event that ends at refusal 6: the number itself, as this crate knows no refusals.
pub fn put_stop(out: &mut [u8], at: usize, clock: u32) -> usize
    ensures value { result ≡ place_after out.old at (stop_text clock) }
    ensures out_after { out.new ≡ out_after out.old at (stop_text clock) }
{
    put_line(out, at, b'X', &[clock, 6])
}

// The last line: the clock and the bytes moved.
pub fn put_end(out: &mut [u8], at: usize, clock: u32, bytes: u32) -> usize
    ensures value { result ≡ place_after out.old at (end_text clock bytes) }
    ensures out_after { out.new ≡ out_after out.old at (end_text clock bytes) }
{
    put_line(out, at, b'E', &[clock, bytes])
}

// The only line of a bad sheet: the refusal's number, which may be any, and its place.
pub fn put_fault(out: &mut [u8], at: usize, number: u32, place: u32) -> usize
    ensures value { result ≡ place_after out.old at (fault_text number place) }
    ensures out_after { out.new ≡ out_after out.old at (fault_text number place) }
{
    put_line(out, at, b'S', &[number, place])
}
