// The channel's part of an image: whether it was ever granted, clock, owner, asked time and marks, and then the requests.
ghost use Rattle.std.specs.Prelude.{◌≡◌, ◌≤◌, length};
ghost use Rattle.basics.specs.Limits.{places};
ghost use Rattle.number.specs.Number.{read_number};
ghost use Rattle.channel.specs.Channel.{fresh_channel};
ghost use Rattle.image.specs.Read.{phase_of, marks_of, asked_at, channel_read, state_at, requests_at, ended, nothing_after, channel_part_at};
ghost use Rattle.image.specs.inner.Rows.{read_request};

use crate::ChannelRead;
use crate::rows::number_in;
use basics::{PLACES, PLACES_U32};
use channel::{Channel, Phase, Request};
use number::Fault;
use refusal::Refusal;

// One mark for each place.
const MARKS_MOST: u32 = 65535;

// The phase by its number.
fn phase_of(number: u32) -> Phase
    requires { number ≤ places }
    ensures { result ≡ phase_of number }
{
    if number == 0 {
        return Phase::Arbitrating;
    }
    Phase::Granted((number - 1) as u8)
}

// The marks by their number.
fn marks_of(number: u32) -> [bool; PLACES]
    ensures { result ≡ marks_of places number }
{
    let mut marks = [false; PLACES];
    let mut rest = number;
    for level in 0..PLACES {
        marks[level] = rest % 2 == 1;
        rest /= 2;
    }
    marks
}

// The asked time: a number that says whether there is one, and then the time itself.
#[tactic(auto, unfolding(crate::specs::Read::asked_at, crate::specs::Read::time_at))]
fn read_asked(bytes: &[u8], at: usize) -> Result<(Option<u32>, usize), Fault>
    ensures { result ≡ asked_at (read_number bytes.now) at }
{
    let (tag, next) = number_in(bytes, 0, 1, at)?;
    if tag == 0 {
        return Ok((None, next));
    }
    let (time, end) = number::read_number(bytes, next)?;
    Ok((Some(time), end))
}

// Whether the channel was ever granted, clock, owner, asked time and marks: a channel that has these and no requests.
#[tactic(auto, unfolding(crate::specs::Read::state_at, crate::specs::Read::clock_at, crate::specs::Read::owner_at, crate::specs::Read::marks_at))]
fn read_state(bytes: &[u8], at: usize) -> Result<(Channel, usize), Fault>
    ensures { result ≡ state_at (read_number bytes.now) at }
{
    let (flag, second) = number_in(bytes, 0, 1, at)?;
    let (clock, third) = number::read_number(bytes, second)?;
    let (owner, fourth) = number_in(bytes, 0, PLACES_U32, third)?;
    let (asked, fifth) = read_asked(bytes, fourth)?;
    let (marks, end) = number_in(bytes, 0, MARKS_MOST, fifth)?;
    let channel = Channel {
        phase: phase_of(owner),
        asked,
        ever: flag == 1,
        clock,
        inactive: marks_of(marks),
        direction: [0; PLACES],
        space: [0; PLACES],
        address: [0; PLACES],
        left: [0; PLACES],
        offset: [0; PLACES],
    };
    Ok((channel, end))
}

// A request by the bytes that are left of it, and its other numbers from a place on. A `match` for each number: with `?`
// reading a channel with sixteen requests takes a fifth more instructions.
fn read_request(bytes: &[u8], left: u32, at: usize) -> Result<(Request, usize), Fault>
    ensures { result ≡ read_request (read_number bytes.now) left at }
{
    let (direction, second) = match number::read_number(bytes, at) {
        Ok(read) => read,
        Err(fault) => return Err(fault),
    };
    let (space, third) = match number::read_number(bytes, second) {
        Ok(read) => read,
        Err(fault) => return Err(fault),
    };
    let (address, fourth) = match number::read_number(bytes, third) {
        Ok(read) => read,
        Err(fault) => return Err(fault),
    };
    let (offset, end) = match number::read_number(bytes, fourth) {
        Ok(read) => read,
        Err(fault) => return Err(fault),
    };
    let request = Request {
        direction,
        space,
        address,
        left,
        offset,
    };
    Ok((request, end))
}

// The end of the part, of an image so long: nothing may follow it.
fn ended(length: usize, end: usize) -> Result<usize, Fault>
    ensures { result ≡ ended length end }
{
    if end < length {
        let why = Refusal::Malformed;
        return Err(Fault { why, place: end });
    }
    Ok(end)
}

// The requests, laid into a channel that has none, as far as they can be read, and the end of the image. A place without one stays as it is.
fn read_requests(bytes: &[u8], channel: &mut Channel, at: usize) -> Result<usize, Fault>
    ensures { channel_read channel.new result
        ≡ nothing_after (length bytes.now) (requests_at (read_number bytes.now) places 0 channel.old at) }
{
    let mut place = at;
    for level in 0..PLACES {
        let (left, next) = number::read_number(bytes, place)?;
        place = next;
        if left == 0 {
            continue;
        }
        let (request, end) = read_request(bytes, left, next)?;
        channel.direction[level] = request.direction;
        channel.space[level] = request.space;
        channel.address[level] = request.address;
        channel.left[level] = request.left;
        channel.offset[level] = request.offset;
        place = end;
    }
    ended(bytes.len(), place)
}

// The channel's part of an image, with nothing behind it.
#[tactic(auto, unfolding(crate::specs::Read::channel_part_at))]
pub(crate) fn read_channel_at(bytes: &[u8], at: usize) -> ChannelRead
    ensures { result ≡ channel_part_at (read_number bytes.now) (length bytes.now) at }
{
    match read_state(bytes, at) {
        Ok((mut channel, next)) => {
            let part = read_requests(bytes, &mut channel, next);
            ChannelRead { channel, part }
        }
        Err(fault) => no_channel(fault),
    }
}

// No channel was read.
pub(crate) fn no_channel(fault: Fault) -> ChannelRead
    ensures { result ≡ channel_read fresh_channel (Err fault) }
{
    let channel = channel::fresh_channel();
    let part = Err(fault);
    ChannelRead { channel, part }
}
