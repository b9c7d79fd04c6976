// The channel's part of an image, and the set-up's of a sheet's head, as bytes laid into a row that is lent.
ghost use Rattle.std.specs.Prelude.{◌≡◌, ◌+◌, ◌*◌, ◌≤◌, ◌<◌, length};
ghost use Rattle.std.proofs.lemmas.List.Edits.{sets};
ghost use Rattle.basics.specs.Limits.{places};
ghost use Rattle.number.specs.Number.{bytes_of, whole_at, whole_after};
ghost use Rattle.numbers.specs.Numbers.{all_bytes};
ghost use Rattle.image.specs.Image.{head_bytes};
ghost use Rattle.image.specs.Layout.{flag_number, phase_number, asked_numbers, marks_number, request_numbers};
ghost use Rattle.image.specs.Layout.{requests_numbers, channel_numbers};

use crate::LAYOUT;
use basics::PLACES;
use channel::{Channel, Phase, Request};
use refusal::Refusal;

// 1 for what is so.
fn flag_number(so: bool) -> u32
    ensures { result ≡ flag_number so }
{
    u32::from(so)
}

// The owner's number.
fn phase_number(phase: Phase) -> u32
    ensures { result ≡ phase_number phase }
{
    match phase {
        Phase::Arbitrating => 0,
        Phase::Granted(owner) => u32::from(owner) + 1,
    }
}

// The number of the marks, from the highest place down.
fn marks_number(marks: [bool; PLACES]) -> u32
    ensures { result ≡ marks_number marks }
{
    let mut sum: u32 = 0;
    for level in (0..PLACES).rev() {
        sum = flag_number(marks[level]) + 2 * sum;
    }
    sum
}

// Lays a number where there is room for it, and gives the place past it.
fn put_one(row: &mut [u8], at: usize, v: u32) -> usize
    requires { at + length (bytes_of v) ≤ length row.old }
    ensures value { result ≡ at + length (bytes_of v) }
    ensures row_after { row.new ≡ sets row.old at (bytes_of v) }
{
    number::write_number(row, at, v).unwrap()
}

// The same of the asked time, two numbers at most.
fn put_asked(row: &mut [u8], at: usize, asked: Option<u32>) -> usize
    requires { at + 10 ≤ length row.old }
    ensures value { result ≡ at + length (all_bytes (asked_numbers asked)) }
    ensures row_after { row.new ≡ sets row.old at (all_bytes (asked_numbers asked)) }
{
    match asked {
        None => put_one(row, at, 0),
        Some(time) => {
            let next = put_one(row, at, 1);
            put_one(row, next, time)
        }
    }
}

// The same of an open request, which is five numbers.
fn put_request(row: &mut [u8], at: usize, request: Request) -> usize
    requires { (0 < request.left) × (at + 25 ≤ length row.old) }
    ensures value { result ≡ at + length (all_bytes (request_numbers request)) }
    ensures row_after { row.new ≡ sets row.old at (all_bytes (request_numbers request)) }
{
    let second = put_one(row, at, request.left);
    let third = put_one(row, second, request.direction);
    let fourth = put_one(row, third, request.space);
    let fifth = put_one(row, fourth, request.address);
    put_one(row, fifth, request.offset)
}

// The same of the requests. A place without one is a single number, 0.
fn put_requests(row: &mut [u8], at: usize, channel: Channel) -> usize
    requires { at + 25 * places ≤ length row.old }
    ensures value { result ≡ at + length (all_bytes (requests_numbers channel places 0)) }
    ensures row_after { row.new ≡ sets row.old at (all_bytes (requests_numbers channel places 0)) }
{
    let mut place = at;
    for level in 0..PLACES {
        let left = channel.left[level];
        if left == 0 {
            row[place] = 0;
            place += 1;
            continue;
        }
        let request = Request {
            direction: channel.direction[level],
            space: channel.space[level],
            address: channel.address[level],
            left,
            offset: channel.offset[level],
        };
        place = put_request(row, place, request);
    }
    place
}

// The same of a whole channel: whether it was ever granted, clock, owner, asked time and marks are six numbers at most.
pub(crate) fn put_channel(row: &mut [u8], at: usize, channel: Channel) -> usize
    requires { at + (30 + 25 * places) ≤ length row.old }
    ensures value { result ≡ at + length (all_bytes (channel_numbers channel)) }
    ensures row_after { row.new ≡ sets row.old at (all_bytes (channel_numbers channel)) }
{
    let second = put_one(row, at, flag_number(channel.ever));
    let third = put_one(row, second, channel.clock);
    let fourth = put_one(row, third, phase_number(channel.phase));
    let fifth = put_asked(row, fourth, channel.asked);
    let sixth = put_one(row, fifth, marks_number(channel.inactive));
    put_requests(row, sixth, channel)
}

// Lays bytes from a place on, where there is room for them.
pub(crate) fn put_bytes(from: &[u8], out: &mut [u8], at: usize)
    requires { at + length from.now ≤ length out.old }
    ensures { out.new ≡ sets out.old at from.now }
{
    let end = at + from.len();
    out[at..end].copy_from_slice(from);
}

// Writes bytes from a place on, whole or not at all.
pub(crate) fn put_whole(from: &[u8], out: &mut [u8], at: usize) -> Result<usize, Refusal>
    ensures value { result ≡ whole_at out.old at from.now }
    ensures out_after { out.new ≡ whole_after out.old at from.now }
{
    if out.len() < at {
        return Err(Refusal::NoRoom);
    }
    if out.len() - at < from.len() {
        return Err(Refusal::NoRoom);
    }
    put_bytes(from, out, at);
    Ok(at + from.len())
}

// Lays a sheet's head, given as the list of its numbers, as the set-up's part of an image: the layout number before it, and the
// length of the master store after it. No number has more than five bytes.
pub(crate) fn put_head(row: &mut [u8], list: &[u32], master: u32) -> usize
    requires { 5 * (2 + length list.now) ≤ length row.old }
    ensures value { result ≡ length (head_bytes list.now master) }
    ensures row_after { row.new ≡ sets row.old 0 (head_bytes list.now master) }
{
    let first = put_one(row, 0, LAYOUT);
    // there is room for them
    let last = numbers::write_numbers(list, row, first).unwrap();
    put_one(row, last, master)
}
