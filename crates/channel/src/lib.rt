// The channel (document 01, "The frame", "The line rule"): its phase, asked time, clock, marks and requests; the line
// -PREEMPT, the line rule, the winner of an arbitration, and the channel after set-up.
#![tactic(auto)]

ghost use Rattle.std.specs.Prelude.{◌≡◌};
ghost use Rattle.channel.specs.Channel.{owner_of, owner_place, no_request, request_of, with_request, fresh_channel, set_up};
ghost use Rattle.channel.specs.Line.{line_active, winner_from, clear_marks, asked_now, set_asked, line_rule, asked_if};
ghost use Rattle.channel.specs.Slave.{slave_of};

use basics::{NO_OWNER, PLACES, PLACES_U8, SYSTEM_MASTER};
use frame::{NO_SLAVE, Setup, SlaveRow, SlaveRows};
use refusal::Refusal;

// The channel is arbitrating, or granted to one level. An Option of the owner would say the same, but not which of the two phases of document 01 None is.
#[derive(Clone, Copy)]
pub enum Phase {
    Arbitrating,
    Granted(u8),
}

// `ever` says whether the channel has ever been granted: the first arbitration after set-up is shorter. The request arrays are
// indexed by level number. A level whose `left` is 0 has no open request, and zeros in the others.
#[derive(Clone, Copy)]
pub struct Channel {
    pub phase: Phase,
    pub asked: Option<u32>,
    pub ever: bool,
    pub clock: u32,
    pub inactive: [bool; PLACES],
    pub direction: [u32; PLACES],
    pub space: [u32; PLACES],
    pub address: [u32; PLACES],
    pub left: [u32; PLACES],
    pub offset: [u32; PLACES],
}

// What is left of a request, or a request that is posted. Direction and space are numbers, as any may be handed in: of a channel that has others than 0 and 1 it is
// said that it is unsound.
#[derive(Clone, Copy)]
pub struct Request {
    pub direction: u32,
    pub space: u32,
    pub address: u32,
    pub left: u32,
    pub offset: u32,
}

// A channel that a call gives back, and whether the call was accepted. A refused one has a channel too: `set_up` gives the one after set-up, and `post` the one that
// it got, so that a Result of a channel would say less.
#[derive(Clone, Copy)]
pub struct Judged {
    pub channel: Channel,
    pub verdict: Result<(), Refusal>,
}

// The owner's level; while arbitrating `NO_OWNER`, which is no level, so that whoever compares with a level needs no case of its own.
pub fn owner_of(phase: Phase) -> u8
    ensures { result ≡ owner_of phase }
{
    match phase {
        Phase::Arbitrating => NO_OWNER,
        Phase::Granted(owner) => owner,
    }
}

// Where the owner stands in the arrays; while arbitrating the first place, which nobody then looks at.
pub fn owner_place(phase: Phase) -> usize
    ensures { result ≡ owner_place phase }
{
    match phase {
        Phase::Arbitrating => 0,
        Phase::Granted(owner) => usize::from(owner),
    }
}

// What stands in the place of a level without a request: zeros, and so no Option of a request.
pub fn no_request() -> Request
    ensures { result ≡ no_request }
{
    Request {
        direction: 0,
        space: 0,
        address: 0,
        left: 0,
        offset: 0,
    }
}

// The request of a level.
pub fn request_of(channel: Channel, level: usize) -> Request
    ensures { result ≡ request_of channel level }
{
    if PLACES <= level {
        return no_request();
    }
    Request {
        direction: channel.direction[level],
        space: channel.space[level],
        address: channel.address[level],
        left: channel.left[level],
        offset: channel.offset[level],
    }
}

// The channel with a level's request laid in its place.
pub fn with_request(channel: Channel, level: usize, request: Request) -> Channel
    ensures { result ≡ with_request channel level request }
{
    if PLACES <= level {
        return channel;
    }
    let mut next = channel;
    next.direction[level] = request.direction;
    next.space[level] = request.space;
    next.address[level] = request.address;
    next.left[level] = request.left;
    next.offset[level] = request.offset;
    next
}

// The slave row of a request, or a row of zeros.
#[tactic(auto, unfolding(crate::specs::Slave::slave_of))]
pub fn slave_of(slaves: SlaveRows, request: Request) -> SlaveRow
    ensures { result ≡ slave_of slaves request }
{
    match frame::slave_row(slaves, request.space, request.address, request.left) {
        None => NO_SLAVE,
        Some((row, _)) => row,
    }
}

// -PREEMPT: some level other than the owner has an open request and isn't inactive.
pub fn line_active(left: &[u32; PLACES], inactive: &[bool; PLACES], phase: Phase) -> bool
    ensures { result ≡ line_active left.now inactive.now phase }
{
    let owner = owner_of(phase) as usize;
    for level in 0..PLACES {
        if (left[level] != 0) & (!inactive[level] & (level != owner)) {
            return true;
        }
    }
    false
}

// The lowest-numbered level from `low` on with an open request and no inactive mark; with none, 15. From 0 on it is the winner
// of an arbitration, and so it is from a level on below which nobody waits.
pub fn winner_from(left: &[u32; PLACES], inactive: &[bool; PLACES], low: u8) -> u8
    ensures { result ≡ winner_from left.now inactive.now low }
{
    for level in low..PLACES_U8 {
        let at = level as usize;
        if (left[at] != 0) & !inactive[at] {
            return level;
        }
    }
    SYSTEM_MASTER
}

// Line rule 1: if the line is not active, every inactive mark is removed.
#[tactic(auto, unfolding(crate::specs::Line::clear_marks))]
fn clear_marks(channel: Channel) -> Channel
    ensures { result ≡ clear_marks channel }
{
    if line_active(&channel.left, &channel.inactive, channel.phase) {
        return channel;
    }
    let mut next = channel;
    next.inactive = [false; PLACES];
    next
}

// An active line sets the asked time to the clock.
pub fn asked_if(active: bool, clock: u32) -> Option<u32>
    ensures { result ≡ asked_if active clock }
{
    if active { Some(clock) } else { None }
}

// Line rule 2: while granted, an active line with no asked time sets it to the clock; while arbitrating there is none.
fn asked_now(phase: Phase, asked: Option<u32>, active: bool, clock: u32) -> Option<u32>
    ensures { result ≡ asked_now phase asked active clock }
{
    match phase {
        Phase::Arbitrating => None,
        Phase::Granted(_) => asked.or(asked_if(active, clock)),
    }
}

#[tactic(auto, unfolding(crate::specs::Line::set_asked))]
fn set_asked(channel: Channel) -> Channel
    ensures { result ≡ set_asked channel }
{
    let active = line_active(&channel.left, &channel.inactive, channel.phase);
    Channel {
        asked: asked_now(channel.phase, channel.asked, active, channel.clock),
        ..channel
    }
}

// The line rule, after each accepted post and step.
pub fn line_rule(channel: Channel) -> Channel
    ensures { result ≡ line_rule channel }
{
    set_asked(clear_marks(channel))
}

// After set-up: arbitrating, never granted, clock 0, no requests, no marks.
pub fn fresh_channel() -> Channel
    ensures { result ≡ fresh_channel }
{
    Channel {
        phase: Phase::Arbitrating,
        asked: None,
        ever: false,
        clock: 0,
        inactive: [false; PLACES],
        direction: [0; PLACES],
        space: [0; PLACES],
        address: [0; PLACES],
        left: [0; PLACES],
        offset: [0; PLACES],
    }
}

// The set-up call: the fresh channel, and whether the set-up keeps the frame.
#[tactic(auto, unfolding(crate::specs::Channel::set_up))]
pub fn set_up(setup: Setup) -> Judged
    ensures { result ≡ set_up setup }
{
    let channel = fresh_channel();
    let verdict = if frame::is_framed(setup) {
        Ok(())
    } else {
        Err(Refusal::Unsound)
    };
    Judged { channel, verdict }
}
